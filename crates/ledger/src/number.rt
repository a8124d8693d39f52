ghost use Rattle.std.specs.Prelude.{◌≡◌, decimal};
ghost use Rattle.ledger.specs.Outputs.{put_at, count_of};

use crate::output::Output;
use itoa::Buffer;
use vocabulary::refusal::Refusal;

// Writes a number in its shortest form at the start of an output, and says how many bytes it has. It is refused, and
// nothing of it is written, if it does not fit.
pub fn write_number(out: &mut [u8], n: u64) -> Result<usize, Refusal>
    ensures answer { result ≡ count_of (decimal n) out.old }
    ensures held { out.new ≡ put_at 0 (decimal n) out.old }
{
    let mut output = Output::over(out);
    output.append(Buffer::new().format(n).as_bytes())?;
    Ok(output.len())
}

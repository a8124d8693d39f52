ghost use Rattle.std.specs.Prelude.{◌≡◌, Ok};
ghost use Rattle.ledger.specs.Lines.{text_of};
ghost use Rattle.ledger.specs.Outputs.{put_at};

use ledger::line::Line;
use ledger::output::Output;
use vocabulary::refusal::Refusal;

// Writes any line into an output of its own, which has room for every line.
pub fn put_alone(line: &Line, out: &mut [u8; 160]) -> Result<(), Refusal>
    ensures fits { result ≡ Ok tt }
    ensures held { out.new ≡ put_at 0 (text_of line.now) out.old }
{
    let mut output = Output::over(out);
    output.put(line)
}

// The line as it is.
fn handed_on(line: Line) -> Line
    ensures { result ≡ line }
{
    line
}

// A line that was passed by value is there to be used again.
pub fn twice(line: Line) -> (Line, Line)
    ensures { (result.0 ≡ line) × (result.1 ≡ line) }
{
    (handed_on(line), line)
}

// Two lines, as a caller's own value.
#[derive(Clone, Copy)]
pub struct Pair {
    pub first: Line,
    pub second: Line,
}

// The pair the other way round.
fn turned(pair: Pair) -> Pair
    ensures { result ≡ record { first = pair.second; second = pair.first } }
{
    Pair {
        first: pair.second,
        second: pair.first,
    }
}

// What has lines is there to be used again, too.
pub fn both_ways(pair: Pair) -> (Pair, Pair)
    ensures { (result.0 ≡ pair) × (result.1 ≡ record { first = pair.second; second = pair.first }) }
{
    let other = turned(pair);
    (pair, other)
}

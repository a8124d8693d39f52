ghost use Rattle.std.specs.Prelude.{◌≡◌};
ghost use Rattle.ledger.specs.Lines.{text_of};
ghost use Rattle.ledger.specs.Outputs.{put_at, len_after, answer_of};

use crate::line::Line;
use crate::output::Output;
use vocabulary::refusal::Refusal;

impl<'o> Output<'o> {
    // Writes bytes after those that are written: all of them, or none if they do not fit.
    pub(crate) fn append(&mut self, bytes: &[u8]) -> Result<(), Refusal>
        ensures answer { result ≡ answer_of self.old.len bytes.now self.old.bytes.now }
        ensures held { self.new.bytes.now ≡ put_at self.old.len bytes.now self.old.bytes.now }
        ensures long { self.new.len ≡ len_after self.old.len bytes.now self.old.bytes.now }
        ensures same { self.new.bytes.ghost_name ≡ self.old.bytes.ghost_name }
    {
        let start = self.len;
        let room = self.bytes.len();
        let end = start
            .checked_add(bytes.len())
            .filter(|end| *end <= room)
            .ok_or(Refusal::OutputFull)?;
        self.bytes[start..end].copy_from_slice(bytes);
        self.len = end;
        Ok(())
    }

    // Writes a line after what is written. A line that does not fit is refused, and nothing of it is written; one that
    // ends where the output ends fits.
    pub fn put(&mut self, line: &Line) -> Result<(), Refusal>
        ensures answer { result ≡ answer_of self.old.len (text_of line.now) self.old.bytes.now }
        ensures held { self.new.bytes.now ≡ put_at self.old.len (text_of line.now) self.old.bytes.now }
        ensures long { self.new.len ≡ len_after self.old.len (text_of line.now) self.old.bytes.now }
        ensures same { self.new.bytes.ghost_name ≡ self.old.bytes.ghost_name }
    {
        self.append(line.bytes())
    }
}

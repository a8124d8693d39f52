ghost use Rattle.std.specs.Prelude.{◌≡◌, ◌+◌, ◌≤◌, [], ◌∷◌, ◌++◌, length};
ghost use Rattle.ledger.specs.Lines.{text_of};

use crate::line::{LONGEST, Line};
use itoa::{Buffer, Integer};

impl Line {
    // A line that has some text and no more.
    pub(crate) fn of(text: &str) -> Line
        requires { length text.now ≤ 160 }
        ensures { text_of result ≡ text.now }
    {
        let mut line = Line {
            bytes: [0; LONGEST],
            len: 0,
        };
        line.push(text.as_bytes());
        line
    }

    // The line's bytes.
    pub(crate) fn bytes(&self) -> &[u8]
        ensures { result.now ≡ text_of self.now }
    {
        &self.bytes[..self.len]
    }

    // Adds bytes at the line's end.
    fn push(&mut self, bytes: &[u8])
        requires { length (text_of self.old) + length bytes.now ≤ 160 }
        ensures text { text_of self.new ≡ text_of self.old ++ bytes.now }
        ensures long { length (text_of self.new) ≡ length (text_of self.old) + length bytes.now }
    {
        let end = self.len + bytes.len();
        self.bytes[self.len..end].copy_from_slice(bytes);
        self.len = end;
    }

    // Adds a field: a tab and its bytes.
    pub(crate) fn field(&mut self, bytes: &[u8])
        requires { length (text_of self.old) + 1 + length bytes.now ≤ 160 }
        ensures text { text_of self.new ≡ text_of self.old ++ 9 ∷ bytes.now }
        ensures long { length (text_of self.new) ≡ length (text_of self.old) + 1 + length bytes.now }
    {
        self.push(b"\t");
        self.push(bytes);
    }

    // Adds a number as a field, with a minus before it if it is below 0.
    pub(crate) fn number<I: Integer>(&mut self, n: I)
        requires { length (text_of self.old) + 1 + I.MAX_STR_LEN ≤ 160 }
        ensures text { text_of self.new ≡ text_of self.old ++ 9 ∷ I.text n }
        ensures long { length (text_of self.new) ≤ length (text_of self.old) + 1 + I.MAX_STR_LEN }
    {
        self.field(Buffer::new().format(n).as_bytes());
    }

    // Ends the line with byte 10.
    pub(crate) fn end(&mut self)
        requires { length (text_of self.old) + 1 ≤ 160 }
        ensures { text_of self.new ≡ text_of self.old ++ 10 ∷ [] }
    {
        self.push(b"\n");
    }
}

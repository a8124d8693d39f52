ghost use Rattle.std.specs.Prelude.{◌≡◌};
ghost use Rattle.texts.specs.Lines.{row, row_of};
ghost use Rattle.texts.specs.Faults.{spot_of, placed};
ghost use Rattle.texts.specs.Places.{opening, line_spot, lined, bad_line, whole_line, line_at, after_line, end_of_text, size_of, judged_line, all_read};

use crate::cut::length_before;
use crate::fault::{Bad, Fault, TextName};
use crate::fields::Fields;
use crate::reader::{Line, Reader};
use vocabulary::refusal::Refusal;

// The most bytes that a text may have.
const LONGEST: usize = 65_536;

// A line that breaks the format as a whole is bad at its first field.
const BAD_LINE: Bad = Bad {
    field: 1,
    number: Refusal::Format,
};

impl<'t> Line<'t> {
    // Its fields.
    pub(crate) fn fields(&self) -> Fields<'t>
        ensures { row result ≡ row_of self.now.bytes.now }
    {
        Fields::of(self.bytes)
    }

    // The fault of one of its fields.
    pub(crate) fn fault(&self, bad: Bad) -> Fault<'t>
        ensures { spot_of result ≡ bad_line (line_spot self.now) bad }
    {
        Fault {
            text: self.text,
            line: self.number,
            field: bad.field,
            number: bad.number,
            part: self.bytes,
        }
    }

    // What a rule for its fields gave, or the fault of the field that it named.
    pub(crate) fn judged<A>(&self, given: Result<A, Bad>) -> Result<A, Fault<'t>>
        ensures { placed result ≡ judged_line (line_spot self.now) given }
    {
        // a match: of a closure that hands out a borrow a `map_err` tells nothing
        match given {
            Ok(value) => Ok(value),
            Err(bad) => Err(self.fault(bad)),
        }
    }
}

impl<'t> Reader<'t> {
    // A text before its first line.
    pub(crate) fn of(name: TextName, text: &'t [u8]) -> Reader<'t>
        ensures { result.place ≡ opening name text.entry }
    {
        Reader {
            name,
            text,
            at: 0,
            lines: 0,
        }
    }

    // That the text is not too long. A text that is too long is bad at line 0, field 0.
    pub(crate) fn size(&self) -> Result<(), Fault<'t>>
        ensures { placed result ≡ size_of self.now.place }
    {
        if self.text.len() > LONGEST {
            return Err(Fault {
                text: self.name,
                line: 0,
                field: 0,
                number: Refusal::Format,
                part: &self.text[..0],
            });
        }
        Ok(())
    }

    // Whether no line is left.
    pub(crate) fn is_read(&self) -> bool
        ensures { result ≡ all_read self.now.place.rest }
    {
        self.at == self.text.len()
    }

    // The next line as it stands, ended or not; at the text's end an empty one.
    fn whole_line(&self) -> Line<'t>
        ensures { line_spot result ≡ whole_line self.now.place }
    {
        let rest = &self.text[self.at..];
        Line {
            text: self.name,
            number: self.lines + 1,
            bytes: &rest[..length_before(rest, b'\n')],
        }
    }

    // The next line. It is a fault if there is none, or if it has no byte 10 at its end; the reader then stays.
    pub(crate) fn line(&mut self) -> Result<Line<'t>, Fault<'t>>
        ensures value { lined result ≡ line_at self.old.place }
        ensures after { self.new.place ≡ after_line self.old.place }
    {
        let line = self.whole_line();
        let end = self.at + line.bytes.len();
        if end == self.text.len() {
            return Err(line.fault(BAD_LINE));
        }
        self.at = end + 1;
        self.lines += 1;
        Ok(line)
    }

    // That no line is left. A surplus line is a fault.
    pub(crate) fn end(&self) -> Result<(), Fault<'t>>
        ensures { placed result ≡ end_of_text self.now.place }
    {
        if self.is_read() {
            return Ok(());
        }
        Err(self.whole_line().fault(BAD_LINE))
    }
}

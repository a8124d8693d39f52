ghost use Rattle.std.specs.Prelude.{◌≡◌, ◌≤◌, IfOk};
ghost use Rattle.texts.specs.Lines.{row, row_of, next_row, bad_row, word_at, keyword_at, number_at, coordinate_at, end_at, last_number, bare, no_fields};

use crate::cut::length_before;
use crate::fault::Bad;
use crate::fields::Fields;
use crate::number::{coordinate, number};
use vocabulary::refusal::Refusal;

impl<'t> Fields<'t> {
    // All fields of a line.
    pub(crate) fn of(line: &'t [u8]) -> Fields<'t>
        ensures { row result ≡ row_of line.now }
    {
        Fields {
            rest: Some(line),
            taken: 0,
        }
    }

    // The fault of the field that comes next, also where there is none.
    pub(crate) fn next_bad(&self) -> Bad
        ensures { result ≡ bad_row (row self.now) }
    {
        Bad {
            field: self.taken + 1,
            number: Refusal::Format,
        }
    }

    // The next field. It is a fault if there is none.
    pub(crate) fn word(&mut self) -> Result<&'t [u8], Bad>
        ensures value { bare result ≡ word_at (row self.old) }
        ensures after { row self.new ≡ next_row (row self.old) }
    {
        let bad = self.next_bad();
        let rest = self.rest.ok_or(bad)?;
        let n = length_before(rest, b'\t');
        self.rest = rest.get(n + 1..);
        self.taken += 1;
        Ok(&rest[..n])
    }

    // That the next field is this word.
    pub(crate) fn keyword(&mut self, word: &[u8]) -> Result<(), Bad>
        ensures value { result ≡ keyword_at word.now (row self.old) }
        ensures after { row self.new ≡ next_row (row self.old) }
    {
        let bad = self.next_bad();
        if self.word()? == word {
            return Ok(());
        }
        Err(bad)
    }

    // The next field as a number from `low` to `high`: two numbers and no range, since a RangeInclusive may be used up.
    pub(crate) fn number(&mut self, low: u64, high: u64) -> Result<u64, Bad>
        ensures value { result ≡ number_at low high (row self.old) }
        ensures bound { IfOk result (λ n. n ≤ high) }
        ensures after { row self.new ≡ next_row (row self.old) }
    {
        let bad = self.next_bad();
        let field = self.word()?;
        number(field)
            .filter(|n| (low..=high).contains(n))
            .ok_or(bad)
    }

    // The next field as a number from 0 to 255.
    pub(crate) fn byte(&mut self) -> Result<u8, Bad>
        ensures value { result ≡ number_at 0 255 (row self.old) }
        ensures after { row self.new ≡ next_row (row self.old) }
    {
        Ok(self.number(0, 255)? as u8)
    }

    // The next field as a coordinate of a hit. Inline, since a sheet of landings is read a quarter slower where it is called.
    #[inline]
    pub(crate) fn coordinate(&mut self) -> Result<i32, Bad>
        ensures value { result ≡ coordinate_at (row self.old) }
        ensures after { row self.new ≡ next_row (row self.old) }
    {
        let bad = self.next_bad();
        let field = self.word()?;
        coordinate(field).ok_or(bad)
    }

    // Whether no field is left.
    pub(crate) fn is_empty(&self) -> bool
        ensures { result ≡ no_fields (row self.now).left }
    {
        self.rest.is_none()
    }

    // That no field is left. The first that is left is a fault.
    pub(crate) fn end(&self) -> Result<(), Bad>
        ensures { result ≡ end_at (row self.now) }
    {
        if self.is_empty() {
            return Ok(());
        }
        Err(self.next_bad())
    }

    // The last field as a number from `low` to `high`, which are no range here either.
    pub(crate) fn last_number(mut self, low: u64, high: u64) -> Result<u64, Bad>
        ensures value { result ≡ last_number low high (row self.entry) }
        ensures bound { IfOk result (λ n. n ≤ high) }
    {
        let n = self.number(low, high)?;
        self.end()?;
        Ok(n)
    }

    // The last field as a number from 0 to 255.
    pub(crate) fn last_byte(self) -> Result<u8, Bad>
        ensures { result ≡ last_number 0 255 (row self.entry) }
    {
        Ok(self.last_number(0, 255)? as u8)
    }
}

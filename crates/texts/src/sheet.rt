ghost use Rattle.std.specs.Prelude.{◌≡◌};
ghost use Rattle.texts.specs.Lines.{row};
ghost use Rattle.texts.specs.Faults.{placed};
ghost use Rattle.texts.specs.Places.{opening, after_line};
ghost use Rattle.texts.specs.Sheets.{post_line, sheet_line, kind_word, kind_line, kind_at, after_kind, sheet_line_at};
ghost use Rattle.texts.specs.declared.fault.TextName.{TextName};

use crate::element::Element;
use crate::fault::{Bad, Fault, TextName};
use crate::fields::Fields;
use crate::reader::Reader;
use vocabulary::kind::ElementKind;

// A line of a sheet after its first: an order or steps, by any worker's number up to 255.
#[derive(Clone, Copy)]
pub enum SheetLine<T> {
    // the worker posts the element
    Post { worker: u8, element: T },
    // the worker fetches
    Fetch { worker: u8 },
    // the worker makes one step
    Step { worker: u8 },
    // so many turns are made
    Turn { count: u32 },
}

// A post's line, from the worker on.
fn post_line<T: Element>(mut fields: Fields<'_>) -> Result<SheetLine<T>, Bad>
    ensures { result ≡ post_line T.Element.reads (row fields.entry) }
{
    let worker = fields.byte()?;
    let element = T::read(fields)?;
    Ok(SheetLine::Post { worker, element })
}

// What a line of a sheet says, or its leftmost bad field.
fn sheet_line<T: Element>(mut fields: Fields<'_>) -> Result<SheetLine<T>, Bad>
    ensures { result ≡ sheet_line T.Element.reads (row fields.entry) }
{
    let bad = fields.next_bad();
    match fields.word()? {
        b"post" => post_line(fields),
        b"fetch" => Ok(SheetLine::Fetch {
            worker: fields.last_byte()?,
        }),
        b"step" => Ok(SheetLine::Step {
            worker: fields.last_byte()?,
        }),
        b"turn" => Ok(SheetLine::Turn {
            count: fields.last_number(1, 1_000_000)? as u32,
        }),
        _ => Err(bad),
    }
}

// The kind that the second field of a sheet's first line names.
fn kind_word(mut fields: Fields<'_>) -> Result<ElementKind, Bad>
    ensures { result ≡ kind_word (row fields.entry) }
{
    let bad = fields.next_bad();
    let word = fields.word()?;
    let kind = if word == ElementKind::Bundle.word().as_bytes() {
        ElementKind::Bundle
    } else if word == ElementKind::Landing.word().as_bytes() {
        ElementKind::Landing
    } else {
        return Err(bad);
    };
    fields.end()?;
    Ok(kind)
}

// What a sheet's first line says: which kind of element its posts bring.
fn kind_line(mut fields: Fields<'_>) -> Result<ElementKind, Bad>
    ensures { result ≡ kind_line (row fields.entry) }
{
    fields.keyword(b"kind")?;
    kind_word(fields)
}

impl<'t> Reader<'t> {
    // A sheet before its first line.
    pub fn sheet(text: &'t [u8]) -> Reader<'t>
        ensures { result.place ≡ opening TextName.Sheet text.entry }
    {
        Reader::of(TextName::Sheet, text)
    }

    // The kind of element that the sheet's next line, the first, names. The sheet's size is judged before that line.
    pub fn kind(&mut self) -> Result<ElementKind, Fault<'t>>
        ensures value { placed result ≡ kind_at self.old.place }
        ensures after { self.new.place ≡ after_kind self.old.place }
    {
        self.size()?;
        let line = self.line()?;
        line.judged(kind_line(line.fields()))
    }

    // What the sheet's next line says, none at its end.
    pub fn next_line<T: Element>(&mut self) -> Result<Option<SheetLine<T>>, Fault<'t>>
        ensures value { placed result ≡ sheet_line_at T.Element.reads self.old.place }
        ensures after { self.new.place ≡ after_line self.old.place }
    {
        if self.is_read() {
            return Ok(None);
        }
        let line = self.line()?;
        let said = line.judged(sheet_line::<T>(line.fields()))?;
        Ok(Some(said))
    }
}

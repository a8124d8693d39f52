// What the reading of a text gives, in the form and the stand-ins of the table.
ghost use Rattle.texts_test.specs.FirstFaults.{FirstFault, spotted};

use crate::shown::{Faulted, Named, Said, Shown};
use std::fmt;
use std::marker::PhantomData;
use texts::card::Card;
use texts::element::Element;
use texts::fault::Fault;
use texts::reader::Reader;
use vocabulary::bundle::Bundle;
use vocabulary::kind::ElementKind;
use vocabulary::landing::Landing;

// A card, by what it says or by its fault.
#[derive(Drop)]
pub struct CardOutcome<'t>(pub &'t [u8]);

impl fmt::Display for CardOutcome<'_> {
    fn fmt<W: fmt::Write>(&self, f: &mut fmt::Formatter<W>) -> fmt::Result {
        match Card::read(self.0) {
            Ok(Card::Round(picker)) => write!(f, "{}", Named("round", picker)),
            Ok(Card::Frame(picker)) => write!(f, "{}", Named("frame", picker)),
            Err(fault) => write!(f, "{}", Faulted(fault)),
        }
    }
}

// The first fault of a sheet from where it is read on, none if it is read to its end.
fn first_fault<'t, T: Element + Copy>(sheet: &mut Reader<'t>) -> Option<Fault<'t>>
    ensures { FirstFault T.Element.reads sheet.old.place (spotted result) sheet.new.place }
{
    loop {
        match sheet.next_line::<T>() {
            Ok(Some(_)) => {}
            Ok(None) => return None,
            Err(fault) => return Some(fault),
        }
    }
}

// A sheet of one kind of element, by its lines written again or by its fault.
#[derive(Drop)]
struct SheetOf<'t, T>(&'t [u8], ElementKind, PhantomData<T>);

impl<T: Element + Copy> fmt::Display for SheetOf<'_, T>
where
    Shown<T>: fmt::Display,
{
    fn fmt<W: fmt::Write>(&self, f: &mut fmt::Formatter<W>) -> fmt::Result {
        let mut sheet = Reader::sheet(self.0);
        let _ = sheet.kind();
        if let Some(fault) = first_fault::<T>(&mut sheet) {
            return write!(f, "{}", Faulted(fault));
        }
        let mut sheet = Reader::sheet(self.0);
        let _ = sheet.kind();
        write!(f, "kind>{};", self.1.word())?;
        while let Ok(Some(line)) = sheet.next_line::<T>() {
            write!(f, "{}", Said(line))?;
        }
        Ok(())
    }
}

// A sheet, by its lines written again or by its fault.
#[derive(Drop)]
pub struct SheetOutcome<'t>(pub &'t [u8]);

impl fmt::Display for SheetOutcome<'_> {
    fn fmt<W: fmt::Write>(&self, f: &mut fmt::Formatter<W>) -> fmt::Result {
        let text = self.0;
        let mut sheet = Reader::sheet(text);
        match sheet.kind() {
            Ok(kind @ ElementKind::Bundle) => {
                write!(f, "{}", SheetOf::<Bundle>(text, kind, PhantomData))
            }
            Ok(kind @ ElementKind::Landing) => {
                write!(f, "{}", SheetOf::<Landing>(text, kind, PhantomData))
            }
            Err(fault) => write!(f, "{}", Faulted(fault)),
        }
    }
}

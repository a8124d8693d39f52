// The outcomes' forms as text.
use pickers::picker::Picker;
use std::fmt;
use texts::fault::Fault;
use texts::sheet::SheetLine;
use vocabulary::bundle::Bundle;
use vocabulary::landing::Landing;

// A picker, by its crew, its word, its window and the names that it gives in one window.
#[derive(Drop)]
pub struct Named<P>(pub &'static str, pub P);

impl<P: Picker + Copy> fmt::Display for Named<P> {
    fn fmt<W: fmt::Write>(&self, f: &mut fmt::Formatter<W>) -> fmt::Result {
        let word = self.0;
        let mut picker = self.1;
        let told = picker.tell();
        let crew = told.crew;
        let window = told.window;
        write!(f, "{crew}>{word}>{window}")?;
        for _ in 0..window {
            let worker = picker.ask();
            write!(f, ">{worker}")?;
        }
        Ok(())
    }
}

// Bytes in stand-ins: one character for each byte.
#[derive(Drop)]
struct Part<'t>(&'t [u8]);

impl fmt::Display for Part<'_> {
    fn fmt<W: fmt::Write>(&self, f: &mut fmt::Formatter<W>) -> fmt::Result {
        for b in self.0 {
            let c = match *b {
                b'\t' => '>',
                b'\n' => ';',
                b'\0' => '@',
                b'\r' => '%',
                0xff => '$',
                b' ' => '_',
                other => char::from(other),
            };
            write!(f, "{c}")?;
        }
        Ok(())
    }
}

// A fault and its part.
#[derive(Drop)]
pub struct Faulted<'t>(pub Fault<'t>);

impl fmt::Display for Faulted<'_> {
    fn fmt<W: fmt::Write>(&self, f: &mut fmt::Formatter<W>) -> fmt::Result {
        let fault = self.0;
        write!(
            f,
            "fault>{}>{}>{}>{}>{}",
            fault.text.word(),
            fault.line,
            fault.field,
            fault.number.number(),
            Part(fault.part)
        )
    }
}

// An element, by the fields that write it.
#[derive(Drop)]
pub struct Shown<T>(pub T);

impl fmt::Display for Shown<Bundle> {
    fn fmt<W: fmt::Write>(&self, f: &mut fmt::Formatter<W>) -> fmt::Result {
        let Bundle {
            field,
            wavelength,
            rays,
        } = self.0;
        write!(f, "{field}>{wavelength}>{rays}")
    }
}

impl fmt::Display for Shown<Landing> {
    fn fmt<W: fmt::Write>(&self, f: &mut fmt::Formatter<W>) -> fmt::Result {
        match self.0 {
            Landing::Lost { surface } => write!(f, "lost>{surface}"),
            Landing::Hit { x, y } => write!(f, "hit>{x}>{y}"),
        }
    }
}

// A line of a sheet after its first.
#[derive(Drop)]
pub struct Said<T>(pub SheetLine<T>);

impl<T: Copy> fmt::Display for Said<T>
where
    Shown<T>: fmt::Display,
{
    fn fmt<W: fmt::Write>(&self, f: &mut fmt::Formatter<W>) -> fmt::Result {
        match self.0 {
            SheetLine::Post { worker, element } => write!(f, "post>{worker}>{};", Shown(element)),
            SheetLine::Fetch { worker } => write!(f, "fetch>{worker};"),
            SheetLine::Step { worker } => write!(f, "step>{worker};"),
            SheetLine::Turn { count } => write!(f, "turn>{count};"),
        }
    }
}

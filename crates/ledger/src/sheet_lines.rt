ghost use Rattle.std.specs.Prelude.{◌≡◌, ◌+◌, ◌≤◌, [], ◌∷◌, length};
ghost use Rattle.ledger.specs.Lines.{text_of, line_of};
ghost use Rattle.ledger.specs.SheetLines.{kind_bytes, post_bytes, sheet_bytes};

use crate::element::Written;
use crate::line::Line;
use itoa::Integer;
use texts::sheet::SheetLine;
use vocabulary::kind::ElementKind;

// A line of a word and a number.
fn counted<I: Integer>(word: &str, n: I) -> Line
    requires { length word.now + 2 + I.MAX_STR_LEN ≤ 160 }
    ensures { text_of result ≡ line_of (word.now ∷ I.text n ∷ []) }
{
    let mut line = Line::of(word);
    line.number(n);
    line.end();
    line
}

// A post's line.
fn post<T: Written>(worker: u8, element: &T) -> Line
    ensures { text_of result ≡ post_bytes T.Written.fields_of worker element.now }
{
    let mut line = Line::of("post");
    line.number(worker);
    line.field(element.fields().bytes());
    line.end();
    line
}

impl Line {
    // A sheet's first line: what its posts bring.
    pub fn kind(kind: ElementKind) -> Line
        ensures { text_of result ≡ kind_bytes kind }
    {
        let mut line = Line::of("kind");
        line.field(kind.word().as_bytes());
        line.end();
        line
    }

    // A line of a sheet after its first.
    pub fn sheet<T: Written>(said: &SheetLine<T>) -> Line
        ensures { text_of result ≡ sheet_bytes T.Written.fields_of said.now }
    {
        match said {
            SheetLine::Post { worker, element } => post(*worker, element),
            SheetLine::Fetch { worker } => counted("fetch", *worker),
            SheetLine::Step { worker } => counted("step", *worker),
            SheetLine::Turn { count } => counted("turn", *count),
        }
    }
}

ghost use Rattle.std.specs.Prelude.{◌≡◌};
ghost use Rattle.ledger.specs.LedgerLines.{run_bytes, fault_bytes};
ghost use Rattle.ledger.specs.Lines.{text_of};

use crate::line::Line;
use crate::picker::PickerKind;
use texts::fault::Fault;
use vocabulary::kind::ElementKind;

impl Line {
    // The ledger's `run` line: how many workers there are, what the posts bring, how the workers are named in turn, and
    // the window.
    pub fn run(n: u8, kind: ElementKind, picker: PickerKind, window: u16) -> Line
        ensures { text_of result ≡ run_bytes n kind picker window }
    {
        let mut line = Line::of("run");
        line.number(n);
        line.field(kind.word().as_bytes());
        line.field(picker.word().as_bytes());
        line.number(window);
        line.end();
        line
    }

    // The ledger's `fault` line: the text, the line and the field where it is wrong, and the refusal's number.
    pub fn fault(fault: Fault<'_>) -> Line
        ensures { text_of result ≡ fault_bytes fault.entry.text fault.entry.line fault.entry.field fault.entry.number }
    {
        let mut line = Line::of("fault");
        line.field(fault.text.word().as_bytes());
        line.number(fault.line);
        line.number(fault.field);
        line.number(fault.number.number());
        line.end();
        line
    }
}

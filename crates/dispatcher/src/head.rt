ghost use Rattle.std.specs.Prelude.{◌≡◌};
ghost use Rattle.ledger.specs.LedgerLines.{run_bytes};
ghost use Rattle.ledger.specs.Lines.{text_of};
ghost use Rattle.texts.specs.declared.fault.TextName.{TextName};
ghost use Rattle.texts.specs.Cards.{card_of, says};
ghost use Rattle.texts.specs.Places.{opening};
ghost use Rattle.dispatcher.specs.Heads.{head_bytes, run_of};

use ledger::line::Line;
use ledger::picker::PickerKind;
use pickers::picker::Picker;
use texts::card::Card;
use texts::heads::read_heads;
use texts::reader::Reader;
use vocabulary::kind::ElementKind;

// The ledger's `run` line of a picker and a kind of element. Crew and window are what the picker tells.
fn told_line<P: Picker>(picker: &P, kind: ElementKind, named: PickerKind) -> Line
    ensures { text_of result ≡ run_bytes (P.crew picker.now) kind named (P.window picker.now) }
{
    let told = picker.tell();
    Line::run(told.crew, kind, named, told.window)
}

// The ledger's `run` line of a card and a kind of element.
fn run_line(card: &Card, kind: ElementKind) -> Line
    ensures { text_of result ≡ run_of (says card.now) kind }
{
    match card {
        Card::Round(picker) => told_line(picker, kind, PickerKind::Round),
        Card::Frame(picker) => told_line(picker, kind, PickerKind::Frame),
    }
}

// The ledger's first line: `run` where card and sheet begin well, else `fault`.
pub fn head_line<'t>(card: &'t [u8], sheet: &'t [u8]) -> Line
    ensures { text_of result ≡ head_bytes (card_of (opening TextName.Card card.entry)) (opening TextName.Sheet sheet.entry) }
{
    let mut reader = Reader::sheet(sheet);
    match read_heads(card, &mut reader) {
        Ok((card, Ok(kind))) => run_line(&card, kind),
        Ok((_, Err(fault))) | Err(fault) => Line::fault(fault),
    }
}

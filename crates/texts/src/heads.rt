ghost use Rattle.std.specs.Prelude.{◌≡◌};
ghost use Rattle.texts.specs.declared.fault.TextName.{TextName};
ghost use Rattle.texts.specs.Cards.{card_of, card_read};
ghost use Rattle.texts.specs.Faults.{placed};
ghost use Rattle.texts.specs.Heads.{heads_of, card_in, kind_in, sheet_after};
ghost use Rattle.texts.specs.Places.{opening};

use crate::card::Card;
use crate::fault::Fault;
use crate::reader::Reader;
use vocabulary::kind::ElementKind;

// What the sheet's first line names, or its fault.
pub type KindRead<'t> = Result<ElementKind, Fault<'t>>;

// Reads a card, and then the sheet's first line. The first fault counts, whichever text it is of. A card without a fault
// is handed out whatever the sheet's first line is; at a fault of the card the sheet is not looked at.
pub fn read_heads<'t>(
    text: &'t [u8],
    sheet: &mut Reader<'t>,
) -> Result<(Card, KindRead<'t>), Fault<'t>>
    ensures value { placed (kind_in result) ≡ heads_of (card_of (opening TextName.Card text.entry)) sheet.old.place }
    ensures card { card_read (card_in result) ≡ card_of (opening TextName.Card text.entry) }
    ensures after { sheet.new.place ≡ sheet_after (card_of (opening TextName.Card text.entry)) sheet.old.place }
{
    let card = Card::read(text)?;
    Ok((card, sheet.kind()))
}

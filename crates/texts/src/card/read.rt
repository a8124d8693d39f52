ghost use Rattle.std.specs.Prelude.{◌≡◌, None, Ok, Err};
ghost use Rattle.vocabulary.specs.declared.refusal.Refusal.{Refusal};
ghost use Rattle.pickers.specs.Frames.{judged};
ghost use Rattle.texts.specs.Lines.{row};
ghost use Rattle.texts.specs.Places.{opening};
ghost use Rattle.texts.specs.Cards.{says, says_or, crew_or, crew_line, frame_of, frame_line, picker_line, card_of, card_read};
ghost use Rattle.texts.specs.declared.fault.TextName.{TextName};

use crate::card::Card;
use crate::fault::{Bad, Fault, TextName};
use crate::fields::Fields;
use crate::number::LARGEST;
use crate::reader::Reader;
use crate::workers::{first_foreign, named};
use pickers::frame::Frame;
use pickers::round::Round;
use vocabulary::crew::Crew;
use vocabulary::refusal::Refusal;

// The crew that a card's first line names.
fn crew_line(mut fields: Fields<'_>) -> Result<Crew, Bad>
    ensures { crew_or result ≡ crew_line (row fields.entry) }
{
    fields.keyword(b"crew")?;
    let n = fields.last_number(0, LARGEST)?;
    Crew::try_from(n).map_err(|number| Bad { field: 2, number })
}

// The field at which a row of workers, from field 3 on, is bad if it was refused. No value has both the crew's number and
// the row, which is lent for this call.
fn bad_worker(n: u8, row: &[u8], number: Refusal) -> Bad
    requires { judged n row.now ≡ Err number }
    ensures { Err result ≡ frame_of n row.now }
{
    let field = match number {
        Refusal::FrameLength if row.is_empty() => 3,
        Refusal::FrameLength => 67,
        Refusal::ForeignWorker => 3 + first_foreign(n, row),
        _ => 2,
    };
    Bad { field, number }
}

// The card of a frame, from its workers on.
fn frame_line(crew: Crew, fields: Fields<'_>) -> Result<Card, Bad>
    ensures { says_or result ≡ frame_line crew.n (row fields.entry) }
{
    let workers = named(fields)?;
    let mut frame = Frame::first(crew);
    // a match: no proof was found of a `map_err` whose closure borrows the row
    match frame.fill(&workers) {
        Ok(()) => Ok(Card::Frame(frame)),
        Err(number) => Err(bad_worker(crew.size(), &workers, number)),
    }
}

// The card of a crew, by its second line.
fn picker_line(crew: Crew, mut fields: Fields<'_>) -> Result<Card, Bad>
    ensures { says_or result ≡ picker_line crew.n (row fields.entry) }
{
    fields.keyword(b"picker")?;
    let bad = fields.next_bad();
    match fields.word()? {
        b"round" => {
            fields.end()?;
            Ok(Card::of(crew))
        }
        b"frame" => frame_line(crew, fields),
        _ => Err(bad),
    }
}

impl Card {
    // The card of rounds of a crew, which worker 0 begins.
    pub fn of(crew: Crew) -> Card
        ensures { says result ≡ record { crew = crew.n; row = None; next = 0 } }
    {
        Card::Round(Round::of(crew))
    }

    // The card that a text holds, or its fault.
    pub fn read(text: &[u8]) -> Result<Card, Fault<'_>>
        ensures { card_read result ≡ card_of (opening TextName.Card text.entry) }
    {
        let mut reader = Reader::of(TextName::Card, text);
        reader.size()?;
        let line = reader.line()?;
        let crew = line.judged(crew_line(line.fields()))?;
        let line = reader.line()?;
        let card = line.judged(picker_line(crew, line.fields()))?;
        reader.end()?;
        Ok(card)
    }
}

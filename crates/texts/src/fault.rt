ghost use Rattle.std.specs.Prelude.{◌≡◌};
ghost use Rattle.texts.specs.Words.{name_word};

use vocabulary::refusal::Refusal;

// Which of the two texts.
#[derive(Clone, Copy, PartialEq, Eq, Debug)]
pub enum TextName {
    Card,
    Sheet,
}

impl TextName {
    // The word that the ledger has for it. A table of its own, and no Display: of what
    // that writes no contract can speak.
    pub fn word(self) -> &'static str
        ensures { result.now ≡ name_word self }
    {
        match self {
            TextName::Card => "card",
            TextName::Sheet => "sheet",
        }
    }
}

// A field of a line that breaks a rule: its number, from 1, and the refusal.
#[derive(Clone, Copy)]
pub struct Bad {
    pub field: usize,
    pub number: Refusal,
}

// What is wrong with a text, and where. Lines and fields count from 1; both are 0 where the whole text is too long, as the
// ledger tells it.
// The part is the bad line without its byte 10, where it stands in the text that was lent. A plain record that callers
// read, so it has no model.
#[derive(Clone, Copy)]
pub struct Fault<'t> {
    pub text: TextName,
    pub line: usize,
    pub field: usize,
    pub number: Refusal,
    pub part: &'t [u8],
}

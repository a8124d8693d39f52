ghost use Rattle.std.specs.Prelude.{◌≡◌};
ghost use Rattle.ledger.specs.LedgerLines.{picker_name};

// How the workers are named in turn, as the ledger tells it.
#[derive(Clone, Copy, PartialEq, Eq, Debug)]
pub enum PickerKind {
    Round,
    Frame,
}

impl PickerKind {
    // The word that the ledger has for it. A table of its own, and no Display: of what
    // that writes no contract can speak.
    pub(crate) fn word(self) -> &'static str
        ensures { result.now ≡ picker_name self }
    {
        match self {
            PickerKind::Round => "round",
            PickerKind::Frame => "frame",
        }
    }
}

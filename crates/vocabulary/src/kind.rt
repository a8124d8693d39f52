ghost use Rattle.std.specs.Prelude.{◌≡◌};
ghost use Rattle.vocabulary.specs.Kinds.{word_of, element_word};

// What a point or an answer is of: a post, a fetch that got an element, or a fetch that found none.
#[derive(Clone, Copy, PartialEq, Eq, Debug)]
pub enum Kind {
    Post,
    Fetch,
    None,
}

impl Kind {
    // The word that the ledger has for it. A table of its own, and no Display: of what
    // that writes no contract can speak.
    pub fn word(self) -> &'static str
        ensures { result.now ≡ word_of self }
    {
        match self {
            Kind::Post => "post",
            Kind::Fetch => "fetch",
            Kind::None => "none",
        }
    }
}

// What a sheet's posts bring.
#[derive(Clone, Copy, PartialEq, Eq, Debug)]
pub enum ElementKind {
    Bundle,
    Landing,
}

impl ElementKind {
    // The word that sheet and ledger have for it; a table of its own too.
    pub fn word(self) -> &'static str
        ensures { result.now ≡ element_word self }
    {
        match self {
            ElementKind::Bundle => "bundle",
            ElementKind::Landing => "landing",
        }
    }
}

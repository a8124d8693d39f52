ghost use Rattle.std.specs.Prelude.{◌≡◌};
ghost use Rattle.pickers.specs.Turns.{following, steps_to};
ghost use Rattle.std.proofs.Common.{rules};

use crate::following::following;
use crate::picker::{Picker, Told};
use crate::round::Round;
use vocabulary::crew::Crew;

impl Round {
    // The round of a crew, which begins with the worker 0.
    pub fn of(crew: Crew) -> Round
        ensures { (result.crew ≡ crew) × (result.next ≡ 0) }
    {
        Round { crew, next: 0 }
    }
}

impl Picker for Round {
    ghost crew = { λ p. p.crew.n };

    ghost window = { λ p. p.crew.n };

    ghost due = { λ p b. steps_to p.crew.n p.next b };

    ghost asks = { λ p r q. (r ≡ p.next) × (q.crew ≡ p.crew) × (q.next ≡ following p.crew.n p.next) };

    ghost lawful = { Prim.search rules };

    fn ask(&mut self) -> u8 {
        let named = self.next;
        self.next = following(self.crew.size(), named);
        named
    }

    fn tell(&self) -> Told {
        let n = self.crew.size();
        Told {
            crew: n,
            window: u16::from(n),
        }
    }
}

ghost use Rattle.std.specs.Prelude.{◌≡◌, ◌≤◌, ◌≢◌};
ghost use Rattle.pickers_test.specs.Dues.{due_of, free};
ghost use Rattle.std.proofs.Common.{rules, arith};

use pickers::picker::{Picker, Told};

// Within how many asks each worker is named.
const WINDOW: u8 = 5;

// Three workers, 0 to 2, of which the one that is due first is named. No two are due at the same ask. Once named, the
// worker 0 is due again as early as that allows from the second ask on, and the others at the fifth ask.
#[derive(Clone, Copy)]
pub struct EarliestDue {
    // within how many asks the worker 0 is named, and so on
    zero: u8,
    one: u8,
    two: u8,
    ghost ahead: { (1 ≤ zero) × (1 ≤ one) × (1 ≤ two) },
    ghost soon: { (zero ≤ 5) × (one ≤ 5) × (two ≤ 5) },
    ghost apart: { (zero ≢ one) × (zero ≢ two) × (one ≢ two) },
}

// The least number from 2 on that is neither a nor b.
fn least_free(a: u8, b: u8) -> u8
    ensures { result ≡ free a b }
{
    if a != 2 && b != 2 {
        2
    } else if a != 3 && b != 3 {
        3
    } else {
        4
    }
}

impl EarliestDue {
    // The workers 0, 1 and 2 are due at the first, the second and the third ask.
    pub fn start() -> EarliestDue
        ensures { (result.zero ≡ 1) × (result.one ≡ 2) × (result.two ≡ 3) }
    {
        EarliestDue {
            zero: 1,
            one: 2,
            two: 3,
        }
    }
}

impl Picker for EarliestDue {
    ghost crew = { λ _. 3 };

    ghost window = { λ _. 5 };

    ghost due = { λ p b. due_of p.zero p.one p.two b };

    ghost lawful = { Prim.search rules };

    fn ask(&mut self) -> u8 {
        let EarliestDue { zero, one, two } = *self;
        if zero < one && zero < two {
            *self = EarliestDue {
                zero: least_free(one - 1, two - 1),
                one: one - 1,
                two: two - 1,
            };
            0
        } else if one < two {
            *self = EarliestDue {
                zero: zero - 1,
                one: WINDOW,
                two: two - 1,
            };
            1
        } else {
            *self = EarliestDue {
                zero: zero - 1,
                one: one - 1,
                two: WINDOW,
            };
            2
        }
    }

    fn tell(&self) -> Told {
        Told {
            crew: 3,
            window: u16::from(WINDOW),
        }
    }
}

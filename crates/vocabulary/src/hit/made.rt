ghost use Rattle.std.specs.Prelude.{◌≡◌};
ghost use Rattle.vocabulary.specs.Hits.{in_bounds, hit_of, shown};

use crate::hit::Hit;
use crate::landing::Landing;
use crate::refusal::Refusal;

// The bound of a hit's coordinates, in nanometres.
const BOUND: i32 = 2_000_000;

// Whether a coordinate is within bounds.
fn within(c: i32) -> bool
    ensures { result ≡ in_bounds c }
{
    (-BOUND..=BOUND).contains(&c)
}

impl Hit {
    // The hit of a landing: none of a lost one, and refused where a coordinate is out of bounds. That there is none is no
    // failure, so this is no TryFrom.
    pub fn of(landing: Landing) -> Result<Option<Hit>, Refusal>
        ensures { shown result ≡ hit_of landing }
    {
        match landing {
            Landing::Lost { surface: _ } => Ok(None),
            Landing::Hit { x, y } => {
                if within(x) && within(y) {
                    Ok(Some(Hit { x, y }))
                } else {
                    Err(Refusal::Format)
                }
            }
        }
    }

    // Its x, in nanometres.
    pub fn x(self) -> i32
        ensures { result ≡ self.x }
    {
        self.x
    }

    // Its y, in nanometres.
    pub fn y(self) -> i32
        ensures { result ≡ self.y }
    {
        self.y
    }
}

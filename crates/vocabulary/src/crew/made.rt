ghost use Rattle.std.specs.Prelude.{◌≡◌};
ghost use Rattle.vocabulary.specs.Crews.{crew_of, sized, allowance};

use crate::crew::Crew;
use crate::refusal::Refusal;

// The crew of n workers, refused if n is not 1 to 16.
impl TryFrom<u64> for Crew {
    type Error = Refusal;

    ghost try_from_gives = { λ n r. sized r ≡ crew_of n };

    fn try_from(n: u64) -> Result<Crew, Refusal> {
        if !(1..=16).contains(&n) {
            return Err(Refusal::CrewSize);
        }
        Ok(Crew { n: n as u8 })
    }
}

impl Crew {
    // How many workers it has.
    pub fn size(self) -> u8
        ensures { result ≡ self.n }
    {
        self.n
    }

    // How many accepted steps a worker of this crew makes at most while an order of its is unanswered.
    pub fn allowance(self) -> u32
        ensures { result ≡ allowance self.n }
    {
        let n = u32::from(self.n);
        100 * n * (n + 1)
    }
}

ghost use Rattle.std.specs.Prelude.{◌<◌};

use vocabulary::crew::Crew;

// The workers of a crew in turn: 0 to n - 1, and then 0 again.
#[derive(Clone, Copy)]
pub struct Round {
    crew: Crew,
    next: u8,
    ghost within: { next < crew.n },
}

mod turns;

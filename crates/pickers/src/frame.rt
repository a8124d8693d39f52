ghost use Rattle.std.specs.Prelude.{◌≡◌, ◌<◌, ◌≤◌, true, length, take};
ghost use Rattle.pickers.specs.Frames.{all_below, all_named};

use vocabulary::crew::Crew;

// The length of the longest row.
const LONGEST: usize = 64;

// A row of at most 64 workers, read round and round from its first place on. It names every worker of the crew, and
// no other.
#[derive(Clone, Copy)]
pub struct Frame {
    crew: Crew,
    // the length of the row, which stands in the first places: no ArrayVec, since a frame is copied and that is not
    len: u8,
    // the place that is read next
    at: u8,
    places: [u8; LONGEST],
    ghost short: { len ≤ 64 },
    ghost within: { at < len },
    ghost sized: { length places ≡ 64 },
    ghost known: { all_below crew.n (take len places) ≡ true },
    ghost named: { all_named crew.n (take len places) ≡ true },
}

mod made;
mod turns;

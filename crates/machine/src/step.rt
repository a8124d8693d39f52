ghost use Rattle.std.specs.Prelude.{◌^◌, ◌<◌};
ghost use Rattle.machine.specs.Advances.{phase_seen};

use crate::access::Seen;

// One step of a worker: how many workers the crew has, the step's number, and what the worker's access saw. Of an entry
// its phase is far below the bound: it is at most the steps counted.
#[derive(Clone, Copy)]
pub struct Step {
    pub n: u8,
    pub number: u32,
    pub seen: Seen,
    ghost far_below: { phase_seen seen < 2 ^ 31 },
}

ghost use Rattle.std.specs.Prelude.{◌≡◌, ◌≤◌, ◌++◌, length, take, drop, Ok, MatchResult};
ghost use Rattle.pickers.specs.Frames.{names, all_below, all_named, judged, up_to};
ghost use Rattle.pickers.specs.Fills.{Filled};

use crate::frame::{Frame, LONGEST};
use vocabulary::crew::Crew;
use vocabulary::refusal::Refusal;

// Whether every worker that the row names is below n.
fn all_below(n: u8, row: &[u8]) -> bool
    ensures { result ≡ all_below n row.now }
{
    row.iter().all(|w| *w < n)
}

// Whether the row names every worker below n.
fn all_named(n: u8, row: &[u8]) -> bool
    ensures { result ≡ all_named n row.now }
{
    (0..n).all(|worker| row.contains(&worker))
}

// Whether a frame of a crew of n can have the row, and if not, why. The crew's number and the row are together only while
// a row is judged, so they are no struct.
fn judge(n: u8, row: &[u8]) -> Result<(), Refusal>
    ensures { result ≡ judged n row.now }
{
    if row.is_empty() || row.len() > LONGEST {
        return Err(Refusal::FrameLength);
    }
    if !all_below(n, row) {
        return Err(Refusal::ForeignWorker);
    }
    if !all_named(n, row) {
        return Err(Refusal::WorkerLeftOut);
    }
    Ok(())
}

impl Frame {
    // The frame that names each worker once, in order.
    pub fn first(crew: Crew) -> Frame
        ensures same_crew { result.crew ≡ crew }
        ensures row_length { result.len ≡ crew.n }
        ensures at_first { result.at ≡ 0 }
        ensures in_order { take result.len result.places ≡ up_to crew.n }
    {
        let n = crew.size();
        let mut places = [0; LONGEST];
        // tried: of `array::from_fn` the check does not know what it gives; and a worker's place is its own number
        for worker in 0..n {
            places[usize::from(worker)] = worker;
        }
        Frame {
            crew,
            len: n,
            at: 0,
            places,
        }
    }

    // Takes the workers for its row, to be read from the first on, or says why not and stays as it is.
    pub fn fill(&mut self, workers: &[u8]) -> Result<(), Refusal>
        ensures answer { result ≡ judged self.old.crew.n workers.now }
        ensures frame { MatchResult result (λ _. Filled self.old workers.now self.new) (λ _. self.new ≡ self.old) }
    {
        judge(self.crew.size(), workers)?;
        // out and back, since a field of a struct with invariants is not lent
        let mut places = self.places;
        places[..workers.len()].copy_from_slice(workers);
        self.places = places;
        self.len = workers.len() as u8;
        self.at = 0;
        Ok(())
    }
}

ghost use Rattle.std.specs.Prelude.{◌≡◌, ◌≤◌, MatchOption};
ghost use Rattle.pickers_test.specs.Asking.{members, Until};

use pickers::picker::Picker;

// Asks until the worker is named, and says how many asks that took. It does not ask for a worker that is not of the
// crew.
pub fn asks_until<P: Picker>(picker: &mut P, worker: u8) -> Option<u16>
    ensures { MatchOption result ((P.Picker.crew picker.old ≤ worker) × (picker.new ≡ picker.old)) (λ count. Until (members P.Picker.crew P.Picker.window P.Picker.due) picker.old worker count picker.new) }
{
    let told = picker.tell();
    if worker >= told.crew {
        return None;
    }
    for count in 1..=told.window {
        if picker.ask() == worker {
            return Some(count);
        }
    }
    unreachable!()
}

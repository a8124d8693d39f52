// One access, made: what it sees and what it leaves.
ghost use Rattle.std.specs.Prelude.{◌≡◌, if◌then◌else◌};
ghost use Rattle.machine.specs.Memory.{seen_by, left_by, entry_holds, with_entry};
ghost use Rattle.machine.specs.Queues.{memory_of, EntryFits, Fitting};
ghost use Rattle.machine.specs.declared.access.Access.{Access};

use crate::access::{Access, Seen};
use crate::entry::Descriptor;
use crate::queue::Queue;

// Writes the new value if the place holds the expected one, and tells whether.
fn compare_exchange<T: Copy + PartialEq>(place: &mut T, expected: T, new: T) -> bool
    ensures held { result ≡ T.eq place.old expected }
    ensures after { place.new ≡ (if T.eq place.old expected then new else place.old) }
{
    let held = *place == expected;
    if held {
        *place = new;
    }
    held
}

impl Queue {
    // Writes an entry, which counts whatever is written.
    #[tactic(auto, using(crate::proofs::ViewLaws::table_writes))]
    fn write_entry(&mut self, k: u8, descriptor: Descriptor)
        requires { EntryFits self.old k }
        ensures { memory_of self.new ≡ with_entry (memory_of self.old) k descriptor }
    {
        let entry = &mut self.entries[usize::from(k)];
        entry.descriptor = descriptor;
        entry.count += 1;
    }

    // Writes an entry if it was not written since the count was read, and tells whether.
    fn exchange_entry(&mut self, k: u8, count: u32, descriptor: Descriptor) -> bool
        requires { EntryFits self.old k }
        ensures held { result ≡ entry_holds (memory_of self.old) k count }
        ensures after { memory_of self.new ≡ left_by (memory_of self.old) (Access.ExchangeEntry k count descriptor) }
    {
        let held = self.entries[usize::from(k)].count == count;
        if held {
            self.write_entry(k, descriptor);
        }
        held
    }

    // Makes one access, in place.
    #[tactic(auto, using(crate::proofs::ViewLaws::table_writes))]
    pub(crate) fn make(&mut self, access: Access) -> Seen
        requires { Fitting self.old access }
        ensures seen { result ≡ seen_by (memory_of self.old) access }
        ensures after { memory_of self.new ≡ left_by (memory_of self.old) access }
    {
        match access {
            Access::None => Seen::Nothing,
            Access::ReadHead => Seen::Place(self.head),
            Access::ReadTail => Seen::Place(self.tail),
            Access::ReadSuccessor(j) => Seen::Link(self.nodes[usize::from(j)].successor),
            Access::ReadTaker(j) => Seen::Link(self.nodes[usize::from(j)].taker),
            Access::ReadEntry(k) => Seen::Entry(self.entries[usize::from(k)]),
            Access::WriteEntry(k, descriptor) => {
                self.write_entry(k, descriptor);
                Seen::Nothing
            }
            Access::ExchangeEntry(k, count, descriptor) => {
                Seen::Held(self.exchange_entry(k, count, descriptor))
            }
            Access::ExchangeHead(from, to) => {
                Seen::Held(compare_exchange(&mut self.head, from, to))
            }
            Access::ExchangeTail(from, to) => {
                Seen::Held(compare_exchange(&mut self.tail, from, to))
            }
            Access::ExchangeSuccessor(j, to) => {
                let successor = &mut self.nodes[usize::from(j)].successor;
                Seen::Held(compare_exchange(successor, None, to))
            }
            Access::ExchangeTaker(j, k) => {
                let taker = &mut self.nodes[usize::from(j)].taker;
                Seen::Held(compare_exchange(taker, None, Some(k)))
            }
        }
    }
}

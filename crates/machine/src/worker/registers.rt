// A worker's registers: each read goes into the register of its letter, and the worker goes on to a stage. One method a
// register: a helper over any place would be the assignment itself, and written out they make the arms too long.
ghost use Rattle.std.specs.Prelude.{◌≡◌};
ghost use Rattle.machine.specs.Registers.{with_tail, with_head, with_next, with_node, with_taker, with_kept, with_saved, with_t3, with_claim};

use crate::stage::Stage;
use crate::worker::Worker;

impl Worker {
    // The tail l was read.
    pub(crate) fn read_tail(&mut self, l: u8, stage: Stage)
        ensures { self.new ≡ with_tail self.old l stage }
    {
        self.tail = l;
        self.stage = stage;
    }

    // The head h was read.
    pub(crate) fn read_head(&mut self, h: u8, stage: Stage)
        ensures { self.new ≡ with_head self.old h stage }
    {
        self.head = h;
        self.stage = stage;
    }

    // The successor x was read.
    pub(crate) fn read_next(&mut self, x: Option<u8>, stage: Stage)
        ensures { self.new ≡ with_next self.old x stage }
    {
        self.next = x;
        self.stage = stage;
    }

    // The node m of an entry was read.
    pub(crate) fn read_node(&mut self, m: Option<u8>, stage: Stage)
        ensures { self.new ≡ with_node self.old m stage }
    {
        self.node = m;
        self.stage = stage;
    }

    // The taker k was read.
    pub(crate) fn read_taker(&mut self, k: Option<u8>, stage: Stage)
        ensures { self.new ≡ with_taker self.old k stage }
    {
        self.taker = k;
        self.stage = stage;
    }

    // The phase f of an entry was read.
    pub(crate) fn keep_phase(&mut self, f: u32, stage: Stage)
        ensures { self.new ≡ with_kept self.old f stage }
    {
        self.kept_phase = f;
        self.stage = stage;
    }

    // An entry was read that a later exchange names.
    pub(crate) fn save_count(&mut self, count: u32, stage: Stage)
        ensures { self.new ≡ with_saved self.old count stage }
    {
        self.saved = count;
        self.stage = stage;
    }

    // T3 read the successor x, in the step of this number.
    pub(crate) fn read_t3(&mut self, x: Option<u8>, number: u32, stage: Stage)
        ensures { self.new ≡ with_t3 self.old x number stage }
    {
        self.next = x;
        self.t3 = number;
        self.stage = stage;
    }

    // T9 read an entry: its count, for a later exchange, and its node m.
    pub(crate) fn read_claim(&mut self, count: u32, m: Option<u8>, stage: Stage)
        ensures { self.new ≡ with_claim self.old count m stage }
    {
        self.saved = count;
        self.node = m;
        self.stage = stage;
    }
}

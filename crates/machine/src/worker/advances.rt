// How a worker advances, by its stage and what its access saw. Where an access of another kind is handed in, it stays.
ghost use Rattle.std.specs.Prelude.{◌≡◌, ◌+◌, ◌^◌, ◌<◌, nat_lt};
ghost use Rattle.machine.specs.Advances.{next_worker, finished_enq, finished_deq, answered, scanned, order_advance, finish_enq_advance, finish_deq_advance};

use crate::access::{Outcome, Seen};
use crate::entry::OrderKind;
use crate::stage::{
    FinishDeqStage, FinishEnqStage, HelpDeqStage, HelpEnqStage, OrderStage, Return, Stage,
};
use crate::step::Step;
use crate::worker::Worker;

impl Worker {
    // Whether a worker of the crew comes after the one of the loop's index.
    fn has_next(&self, n: u8) -> bool
        ensures { result ≡ nat_lt (self.now.index + 1) n }
    {
        u16::from(self.index) + 1 < u16::from(n)
    }

    // On to the next worker of the loop, or out of it to the order's end.
    pub(crate) fn next_worker(&mut self, n: u8)
        ensures { self.new ≡ next_worker n self.old }
    {
        if self.has_next(n) {
            self.index += 1;
            self.stage = Stage::Order(OrderStage::Look);
        } else {
            self.stage = match self.kind {
                OrderKind::Post => Stage::FinishEnq(FinishEnqStage::E1, Return::End),
                OrderKind::Fetch => Stage::FinishDeq(FinishDeqStage::D1, Return::End),
            };
        }
    }

    // The order is answered, with the element of a node or with none.
    fn answered(&mut self, node: Option<u8>) -> Outcome
        ensures { record { worker = self.new; outcome = result } ≡ answered self.old node }
    {
        self.stage = Stage::Idle;
        Outcome::Answered { node }
    }

    // The end of help_finish_enq.
    fn finished_enq(&mut self, n: u8, then: Return) -> Outcome
        ensures { record { worker = self.new; outcome = result } ≡ finished_enq n self.old then }
    {
        match then {
            Return::HelpEnq => self.stage = Stage::HelpEnq(HelpEnqStage::C1),
            Return::HelpDeq => self.stage = Stage::HelpDeq(HelpDeqStage::C1),
            Return::NextWorker => self.next_worker(n),
            Return::End => return self.answered(None),
        }
        Outcome::Worked
    }

    // The end of help_finish_deq. One function for this and the end of help_finish_enq would be told what its last arm does.
    fn finished_deq(&mut self, n: u8, then: Return) -> Outcome
        ensures { record { worker = self.new; outcome = result } ≡ finished_deq n self.old then }
    {
        match then {
            Return::HelpEnq => self.stage = Stage::HelpEnq(HelpEnqStage::C1),
            Return::HelpDeq => self.stage = Stage::HelpDeq(HelpDeqStage::C1),
            Return::NextWorker => self.next_worker(n),
            Return::End => self.stage = Stage::Order(OrderStage::Recall),
        }
        Outcome::Worked
    }

    // Advances in help_finish_enq.
    pub(crate) fn finish_enq(&mut self, step: Step, at: FinishEnqStage, then: Return) -> Outcome
        ensures { record { worker = self.new; outcome = result } ≡ finish_enq_advance step.n self.old step.seen then at }
    {
        use crate::stage::FinishEnqStage::*;
        match (at, step.seen) {
            (E1, Seen::Place(l)) => self.read_tail(l, Stage::FinishEnq(E2, then)),
            (E2, Seen::Link(x)) => {
                self.read_next(x, Stage::FinishEnq(E3, then));
                if x.is_none() {
                    return self.finished_enq(step.n, then);
                }
            }
            (E3, Seen::Entry(e)) => self.save_count(e.count, Stage::FinishEnq(E4, then)),
            (E4, Seen::Place(l)) => {
                if l != self.tail {
                    return self.finished_enq(step.n, then);
                }
                self.stage = Stage::FinishEnq(E5, then);
            }
            (E5, Seen::Entry(e)) => {
                if self.next.is_none() || e.descriptor.node != self.next {
                    return self.finished_enq(step.n, then);
                }
                self.stage = Stage::FinishEnq(E6, then);
            }
            (E6, Seen::Entry(e)) => self.keep_phase(e.descriptor.phase, Stage::FinishEnq(E7, then)),
            (E7, Seen::Held(_)) => self.stage = Stage::FinishEnq(E8, then),
            (E8, Seen::Held(_)) => return self.finished_enq(step.n, then),
            _ => {}
        }
        Outcome::Worked
    }

    // Advances in help_finish_deq.
    pub(crate) fn finish_deq(&mut self, step: Step, at: FinishDeqStage, then: Return) -> Outcome
        ensures { record { worker = self.new; outcome = result } ≡ finish_deq_advance step.n self.old step.seen then at }
    {
        use crate::stage::FinishDeqStage::*;
        match (at, step.seen) {
            (D1, Seen::Place(h)) => self.read_head(h, Stage::FinishDeq(D2, then)),
            (D2, Seen::Link(x)) => self.read_next(x, Stage::FinishDeq(D3, then)),
            (D3, Seen::Link(k)) => {
                self.read_taker(k, Stage::FinishDeq(D4, then));
                if k.is_none() {
                    return self.finished_deq(step.n, then);
                }
            }
            (D4, Seen::Entry(e)) => self.save_count(e.count, Stage::FinishDeq(D5, then)),
            (D5, Seen::Place(h)) => {
                if h != self.head || self.next.is_none() {
                    return self.finished_deq(step.n, then);
                }
                self.stage = Stage::FinishDeq(D6, then);
            }
            (D6, Seen::Entry(e)) => self.keep_phase(e.descriptor.phase, Stage::FinishDeq(D7, then)),
            (D7, Seen::Entry(e)) => self.read_node(e.descriptor.node, Stage::FinishDeq(D8, then)),
            (D8, Seen::Held(_)) => self.stage = Stage::FinishDeq(D9, then),
            (D9, Seen::Held(_)) => return self.finished_deq(step.n, then),
            _ => {}
        }
        Outcome::Worked
    }

    // Reads the next entry for the largest phase; after the last, its own phase is one above.
    fn scanned(&mut self, n: u8, phase: u32)
        requires { (self.old.phase < 2 ^ 31) × (phase < 2 ^ 31) }
        ensures { self.new ≡ scanned n self.old phase }
    {
        let largest = self.phase.max(phase);
        if self.has_next(n) {
            self.phase = largest;
            self.index += 1;
            self.stage = Stage::Order(OrderStage::Scan);
        } else {
            self.phase = largest + 1;
            self.index = 0;
            self.stage = Stage::Order(OrderStage::Announce);
        }
    }

    // Advances in what an order does for itself. Its phase is far below the bound: it is at most the steps counted. That is
    // a fact of the run and no invariant of a worker, whose scan raises its phase by one.
    pub(crate) fn order(&mut self, step: Step, at: OrderStage) -> Outcome
        requires { self.old.phase < 2 ^ 31 }
        ensures { record { worker = self.new; outcome = result } ≡ order_advance step.n self.old step.seen at }
    {
        match (at, step.seen) {
            (OrderStage::Scan, Seen::Entry(entry)) => self.scanned(step.n, entry.descriptor.phase),
            (OrderStage::Announce, _) => self.stage = Stage::Order(OrderStage::Look),
            (OrderStage::Look, Seen::Entry(entry)) => {
                if entry.descriptor.pending && entry.descriptor.phase <= self.phase {
                    self.stage = match entry.descriptor.kind {
                        OrderKind::Post => Stage::HelpEnq(HelpEnqStage::C1),
                        OrderKind::Fetch => Stage::HelpDeq(HelpDeqStage::C1),
                    };
                } else {
                    self.next_worker(step.n);
                }
            }
            (OrderStage::Recall, Seen::Entry(entry)) => {
                if entry.descriptor.node.is_none() {
                    return self.answered(None);
                }
                self.read_node(entry.descriptor.node, Stage::Order(OrderStage::Follow));
            }
            (OrderStage::Follow, Seen::Link(x)) => return self.answered(x),
            _ => {}
        }
        Outcome::Worked
    }
}

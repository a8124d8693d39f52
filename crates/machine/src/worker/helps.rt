// How a worker advances in help_enq and help_deq, and in all.
ghost use Rattle.std.specs.Prelude.{◌≡◌, ◌^◌, ◌<◌, if◌then◌else◌};
ghost use Rattle.machine.specs.Advances.{next_worker, to_help_enq, to_help_deq};
ghost use Rattle.machine.specs.HelpAdvances.{help_enq_advance, help_deq_advance, empty_advance, take_advance, advance_of};
ghost use Rattle.machine.specs.Registers.{goto};
ghost use Rattle.machine.specs.declared.access.Outcome.{Outcome};
ghost use Rattle.machine.specs.declared.stage.Stage.{Stage};

use crate::access::{Outcome, Seen};
use crate::stage::{
    EmptyStage, FinishDeqStage, FinishEnqStage, HelpDeqStage, HelpEnqStage, Return, Stage,
    TakeStage,
};
use crate::step::Step;
use crate::worker::Worker;
use vocabulary::kind::Kind;

impl Worker {
    // The order of the worker of the loop's index has its point.
    fn pointed(&self, number: u32, kind: Kind) -> Outcome
        ensures { result ≡ Outcome.Point number self.now.index kind }
    {
        Outcome::Point {
            number,
            worker: self.index,
            kind,
        }
    }

    // Advances in help_enq.
    fn help_enq(&mut self, step: Step, at: HelpEnqStage) -> Outcome
        ensures { record { worker = self.new; outcome = result } ≡ help_enq_advance step.n step.number self.old step.seen at }
    {
        use crate::stage::HelpEnqStage::*;
        match (at, step.seen) {
            (C1, Seen::Entry(e)) if e.descriptor.pending => self.stage = Stage::HelpEnq(C2),
            (C2, Seen::Entry(e)) if e.descriptor.phase <= self.phase => {
                self.stage = Stage::HelpEnq(P1);
            }
            (C1 | C2, Seen::Entry(_)) => self.next_worker(step.n),
            (P1, Seen::Place(l)) => self.read_tail(l, Stage::HelpEnq(P2)),
            (P2, Seen::Link(x)) => self.read_next(x, Stage::HelpEnq(P3)),
            (P3, Seen::Place(l)) if l != self.tail => self.stage = Stage::HelpEnq(C1),
            (P3, Seen::Place(_)) if self.next.is_some() => {
                self.stage = Stage::FinishEnq(FinishEnqStage::E1, Return::HelpEnq);
            }
            (P3, Seen::Place(_)) => self.stage = Stage::HelpEnq(C1AfterP3),
            (C1AfterP3, Seen::Entry(e)) if e.descriptor.pending => {
                self.stage = Stage::HelpEnq(C2AfterP3);
            }
            (C2AfterP3, Seen::Entry(e)) if e.descriptor.phase <= self.phase => {
                self.stage = Stage::HelpEnq(P4);
            }
            (C1AfterP3 | C2AfterP3, Seen::Entry(_)) => self.stage = Stage::HelpEnq(C1),
            (P4, Seen::Entry(e)) => self.read_node(e.descriptor.node, Stage::HelpEnq(P5)),
            (P5, Seen::Held(true)) => {
                self.stage = Stage::FinishEnq(FinishEnqStage::E1, Return::NextWorker);
                return self.pointed(step.number, Kind::Post);
            }
            (P5, Seen::Held(false)) => self.stage = Stage::HelpEnq(C1),
            _ => {}
        }
        Outcome::Worked
    }

    // Advances in help_deq.
    fn help_deq(&mut self, step: Step, at: HelpDeqStage) -> Outcome
        ensures { record { worker = self.new; outcome = result } ≡ help_deq_advance step.n step.number self.old step.seen at }
    {
        use crate::stage::HelpDeqStage::*;
        match (at, step.seen) {
            (C1, Seen::Entry(e)) if e.descriptor.pending => self.stage = Stage::HelpDeq(C2),
            (C2, Seen::Entry(e)) if e.descriptor.phase <= self.phase => {
                self.stage = Stage::HelpDeq(T1);
            }
            (C1 | C2, Seen::Entry(_)) => self.next_worker(step.n),
            (T1, Seen::Place(h)) => self.read_head(h, Stage::HelpDeq(T2)),
            (T2, Seen::Place(l)) => self.read_tail(l, Stage::HelpDeq(T3)),
            (T3, Seen::Link(x)) => self.read_t3(x, step.number, Stage::HelpDeq(T4)),
            (T4, Seen::Place(h)) => {
                self.stage = if h != self.head {
                    Stage::HelpDeq(C1)
                } else if self.head != self.tail {
                    Stage::Take(TakeStage::T9)
                } else if self.next.is_none() {
                    Stage::Empty(EmptyStage::T5)
                } else {
                    Stage::FinishEnq(FinishEnqStage::E1, Return::HelpDeq)
                };
            }
            _ => {}
        }
        Outcome::Worked
    }

    // Advances in help_deq where the queue was seen empty.
    fn find_empty(&mut self, step: Step, at: EmptyStage) -> Outcome
        ensures { record { worker = self.new; outcome = result } ≡ empty_advance self.old step.seen at }
    {
        use crate::stage::EmptyStage::*;
        match (at, step.seen) {
            (T5, Seen::Entry(e)) => self.save_count(e.count, Stage::Empty(T6)),
            (T6, Seen::Place(l)) if l == self.tail => self.stage = Stage::Empty(C1),
            (C1, Seen::Entry(e)) if e.descriptor.pending => self.stage = Stage::Empty(C2),
            (C2, Seen::Entry(e)) if e.descriptor.phase <= self.phase => {
                self.stage = Stage::Empty(T7);
            }
            (T6, Seen::Place(_)) | (C1 | C2, Seen::Entry(_)) => {
                self.stage = Stage::HelpDeq(HelpDeqStage::C1);
            }
            (T7, Seen::Entry(e)) => self.keep_phase(e.descriptor.phase, Stage::Empty(T8)),
            (T8, Seen::Held(held)) => {
                self.stage = Stage::HelpDeq(HelpDeqStage::C1);
                if held {
                    return self.pointed(self.t3, Kind::None);
                }
            }
            _ => {}
        }
        Outcome::Worked
    }

    // Advances in help_deq where there is an element to take.
    fn take(&mut self, step: Step, at: TakeStage) -> Outcome
        ensures { record { worker = self.new; outcome = result } ≡ take_advance step.n step.number self.old step.seen at }
    {
        use crate::stage::TakeStage::*;
        match (at, step.seen) {
            (T9, Seen::Entry(e)) => self.read_claim(e.count, e.descriptor.node, Stage::Take(C1)),
            (C1, Seen::Entry(e)) if e.descriptor.pending => self.stage = Stage::Take(C2),
            (C2, Seen::Entry(e)) if e.descriptor.phase <= self.phase => {
                self.stage = Stage::Take(T10);
            }
            (C1 | C2, Seen::Entry(_)) => self.next_worker(step.n),
            (T10, Seen::Place(h)) => {
                let claims = h == self.head && self.node != Some(self.head);
                self.stage = Stage::Take(if claims { T11 } else { T13 });
            }
            (T11, Seen::Entry(e)) => self.keep_phase(e.descriptor.phase, Stage::Take(T12)),
            (T12, Seen::Held(true)) => self.stage = Stage::Take(T13),
            (T12, Seen::Held(false)) => self.stage = Stage::HelpDeq(HelpDeqStage::C1),
            (T13, Seen::Held(held)) => {
                self.stage = Stage::FinishDeq(FinishDeqStage::D1, Return::HelpDeq);
                if held {
                    return self.pointed(step.number, Kind::Fetch);
                }
            }
            _ => {}
        }
        Outcome::Worked
    }

    // Advances in one step, by what its access saw. Its phase is far below the bound: it is at most the steps counted.
    // Which part goes on is a stage and no closure, as for its access.
    pub(crate) fn advance(&mut self, step: Step) -> Outcome
        requires { self.old.phase < 2 ^ 31 }
        ensures { record { worker = self.new; outcome = result } ≡ advance_of step.n step.number self.old step.seen }
    {
        match self.stage {
            Stage::Idle => Outcome::Idle,
            Stage::Order(at) => self.order(step, at),
            Stage::FinishEnq(at, then) => self.finish_enq(step, at, then),
            Stage::FinishDeq(at, then) => self.finish_deq(step, at, then),
            Stage::HelpEnq(at) => self.help_enq(step, at),
            Stage::HelpDeq(at) => self.help_deq(step, at),
            Stage::Empty(at) => self.find_empty(step, at),
            Stage::Take(at) => self.take(step, at),
        }
    }
}

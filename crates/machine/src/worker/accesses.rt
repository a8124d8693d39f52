// Which access a worker makes next, by its stage. A register that names a node or a worker is known to have one by then;
// without one, 0 stands for it.
ghost use Rattle.std.specs.Prelude.{◌≡◌, false};
ghost use Rattle.machine.specs.Accesses.{order_access, finish_enq_access, finish_deq_access, help_enq_access, help_deq_access, empty_access, take_access, access_of};
ghost use Rattle.machine.specs.Queues.{memory_of};

use crate::access::Access;
use crate::entry::{Descriptor, OrderKind};
use crate::queue::Queue;
use crate::stage::{
    EmptyStage, FinishDeqStage, FinishEnqStage, HelpDeqStage, HelpEnqStage, OrderStage, Stage,
    TakeStage,
};
use crate::worker::Worker;

impl Worker {
    // The descriptor of an order whose effect is recorded, with the phase that was read.
    fn recorded(&self, kind: OrderKind, node: Option<u8>) -> Descriptor
        ensures { result ≡ record { phase = self.now.kept_phase; pending = false; kind = kind; node = node } }
    {
        Descriptor {
            phase: self.kept_phase,
            pending: false,
            kind,
            node,
        }
    }

    // An order's own access; w is the worker's own number.
    fn order_access(&self, w: u8, at: OrderStage) -> Access
        ensures { result ≡ order_access w self.now at }
    {
        match at {
            OrderStage::Scan | OrderStage::Look => Access::ReadEntry(self.index),
            OrderStage::Announce => {
                let descriptor = Descriptor {
                    phase: self.phase,
                    pending: true,
                    kind: self.kind,
                    node: self.own,
                };
                Access::WriteEntry(w, descriptor)
            }
            OrderStage::Recall => Access::ReadEntry(w),
            OrderStage::Follow => Access::ReadSuccessor(self.node.unwrap_or(0)),
        }
    }

    // The access of help_finish_enq; k is the poster of the node x.
    fn finish_enq_access(&self, k: u8, at: FinishEnqStage) -> Access
        ensures { result ≡ finish_enq_access k self.now at }
    {
        match at {
            FinishEnqStage::E1 | FinishEnqStage::E4 => Access::ReadTail,
            FinishEnqStage::E2 => Access::ReadSuccessor(self.tail),
            FinishEnqStage::E3 | FinishEnqStage::E5 | FinishEnqStage::E6 => Access::ReadEntry(k),
            FinishEnqStage::E7 => {
                Access::ExchangeEntry(k, self.saved, self.recorded(OrderKind::Post, self.next))
            }
            FinishEnqStage::E8 => Access::ExchangeTail(self.tail, self.next.unwrap_or(0)),
        }
    }

    // The access of help_finish_deq; k is the taker that was read.
    fn finish_deq_access(&self, k: u8, at: FinishDeqStage) -> Access
        ensures { result ≡ finish_deq_access k self.now at }
    {
        match at {
            FinishDeqStage::D1 | FinishDeqStage::D5 => Access::ReadHead,
            FinishDeqStage::D2 => Access::ReadSuccessor(self.head),
            FinishDeqStage::D3 => Access::ReadTaker(self.head),
            FinishDeqStage::D4 | FinishDeqStage::D6 | FinishDeqStage::D7 => Access::ReadEntry(k),
            FinishDeqStage::D8 => {
                Access::ExchangeEntry(k, self.saved, self.recorded(OrderKind::Fetch, self.node))
            }
            FinishDeqStage::D9 => Access::ExchangeHead(self.head, self.next.unwrap_or(0)),
        }
    }

    // The access of help_enq, for the worker of the loop's index.
    fn help_enq_access(&self, at: HelpEnqStage) -> Access
        ensures { result ≡ help_enq_access self.now at }
    {
        match at {
            HelpEnqStage::P1 | HelpEnqStage::P3 => Access::ReadTail,
            HelpEnqStage::P2 => Access::ReadSuccessor(self.tail),
            HelpEnqStage::P5 => Access::ExchangeSuccessor(self.tail, self.node),
            _ => Access::ReadEntry(self.index),
        }
    }

    // The access of help_deq, for the worker of the loop's index.
    fn help_deq_access(&self, at: HelpDeqStage) -> Access
        ensures { result ≡ help_deq_access self.now at }
    {
        match at {
            HelpDeqStage::C1 | HelpDeqStage::C2 => Access::ReadEntry(self.index),
            HelpDeqStage::T1 | HelpDeqStage::T4 => Access::ReadHead,
            HelpDeqStage::T2 => Access::ReadTail,
            HelpDeqStage::T3 => Access::ReadSuccessor(self.head),
        }
    }

    // The access of help_deq where the queue was seen empty.
    fn empty_access(&self, at: EmptyStage) -> Access
        ensures { result ≡ empty_access self.now at }
    {
        match at {
            EmptyStage::T6 => Access::ReadTail,
            EmptyStage::T8 => {
                Access::ExchangeEntry(
                    self.index,
                    self.saved,
                    self.recorded(OrderKind::Fetch, None),
                )
            }
            _ => Access::ReadEntry(self.index),
        }
    }

    // The access of help_deq where there is an element to take.
    fn take_access(&self, at: TakeStage) -> Access
        ensures { result ≡ take_access self.now at }
    {
        match at {
            TakeStage::T10 => Access::ReadHead,
            TakeStage::T12 => {
                let claimed = Descriptor {
                    pending: true,
                    ..self.recorded(OrderKind::Fetch, Some(self.head))
                };
                Access::ExchangeEntry(self.index, self.saved, claimed)
            }
            TakeStage::T13 => Access::ExchangeTaker(self.head, self.index),
            _ => Access::ReadEntry(self.index),
        }
    }

    // The access that the worker of the number w makes next. A poster is looked up in the queue and costs no access. Which
    // part goes on is a stage and no closure: a stage is copied with its worker, and the definitions speak of it.
    pub(crate) fn access(&self, w: u8, queue: &Queue) -> Access
        ensures { result ≡ access_of (memory_of queue.now).poster w self.now }
    {
        match self.stage {
            Stage::Idle => Access::None,
            Stage::Order(at) => self.order_access(w, at),
            Stage::FinishEnq(at, _) => {
                let x = self.next.unwrap_or(0);
                self.finish_enq_access(queue.nodes[usize::from(x)].poster, at)
            }
            Stage::FinishDeq(at, _) => self.finish_deq_access(self.taker.unwrap_or(0), at),
            Stage::HelpEnq(at) => self.help_enq_access(at),
            Stage::HelpDeq(at) => self.help_deq_access(at),
            Stage::Empty(at) => self.empty_access(at),
            Stage::Take(at) => self.take_access(at),
        }
    }
}

use crate::entry::{Descriptor, Entry};
use vocabulary::kind::Kind;

// One access to what the workers share. An exchange tests, and writes if the test holds.
#[derive(Clone, Copy)]
pub enum Access {
    // a worker without an order touches nothing
    None,
    ReadHead,
    ReadTail,
    ReadSuccessor(u8),
    ReadTaker(u8),
    ReadEntry(u8),
    WriteEntry(u8, Descriptor),
    // if it was not written since the count was read
    ExchangeEntry(u8, u32, Descriptor),
    // from one node to another
    ExchangeHead(u8, u8),
    ExchangeTail(u8, u8),
    // from none
    ExchangeSuccessor(u8, Option<u8>),
    ExchangeTaker(u8, u8),
}

// What an access sees.
#[derive(Clone, Copy)]
pub enum Seen {
    // nothing was read
    Nothing,
    // the node that head or tail names
    Place(u8),
    // a successor or a taker
    Link(Option<u8>),
    Entry(Entry),
    // whether an exchange held
    Held(bool),
}

// What a step tells of the order that it works on.
#[derive(Clone, Copy)]
pub enum Outcome {
    // the worker has no order
    Idle,
    Worked,
    // the order of this worker has its point
    Point { number: u32, worker: u8, kind: Kind },
    // the worker's own order is answered: with the element of a node, or with none
    Answered { node: Option<u8> },
}

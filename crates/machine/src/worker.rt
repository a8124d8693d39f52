use crate::entry::OrderKind;
use crate::stage::Stage;

// What a worker keeps for itself: where it is in its order, and one register for each letter of the algorithm, which holds
// the value read last.
#[derive(Clone, Copy)]
pub struct Worker {
    pub stage: Stage,
    // its order: post or fetch, and a post's node
    pub kind: OrderKind,
    pub own: Option<u8>,
    // p, its order's phase; while it scans, the largest phase read so far
    pub phase: u32,
    // i, the worker whose entry is scanned or who is helped
    pub index: u8,
    // l and h, the tail and the head
    pub tail: u8,
    pub head: u8,
    // x, a successor
    pub next: Option<u8>,
    // m, the node of an entry
    pub node: Option<u8>,
    // k, a taker
    pub taker: Option<u8>,
    // f, the phase of an entry that is to be kept
    pub kept_phase: u32,
    // the count of writings that a later exchange of the entry names
    pub saved: u32,
    // the number of its latest T3
    pub t3: u32,
}

mod accesses;
mod advances;
mod helps;
mod registers;

// What an order is.
#[derive(Clone, Copy)]
pub enum OrderKind {
    Post,
    Fetch,
}

// An operation descriptor: what a worker announces of its order. The phase is kept one above the stated one, so that the
// first, -1, is 0.
#[derive(Clone, Copy)]
pub struct Descriptor {
    pub phase: u32,
    // a flag of its own: kind and node count whether or not the order is pending
    pub pending: bool,
    pub kind: OrderKind,
    // a post's node; of a fetch the node before the one whose element it gets, once it has one
    pub node: Option<u8>,
}

// A worker's entry: its operation descriptor, and how often the entry was written. An exchange of an entry goes by that
// count and not by the contents.
#[derive(Clone, Copy)]
pub struct Entry {
    pub descriptor: Descriptor,
    pub count: u32,
}

// A node of the queue: its successor, the worker that posted it, and the worker whose fetch took the element after it.
#[derive(Clone, Copy)]
pub struct Node {
    pub successor: Option<u8>,
    pub poster: u8,
    pub taker: Option<u8>,
}

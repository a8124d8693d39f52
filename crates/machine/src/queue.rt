use crate::entry::Entry;
use crate::node::Node;

// What the workers share: the table of entries, the nodes, and the nodes that head and tail name. The tables are of fixed
// size and nodes are named by their numbers, so that nothing is allocated. Its parts are public and it is copied, so it
// has no model.
#[derive(Clone, Copy)]
pub struct Queue {
    pub entries: [Entry; 16],
    pub nodes: [Node; 256],
    pub head: u8,
    pub tail: u8,
}

mod made;

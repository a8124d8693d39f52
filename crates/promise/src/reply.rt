use vocabulary::kind::Kind;
use vocabulary::refusal::Refusal;

// The reply to a call. Steps are numbered from 1 as they are counted. A refusal is one of the six and no `Err` around
// the others, since an event tells them apart in one place.
#[derive(Clone, Copy)]
pub enum Reply<T> {
    // the call was refused and changed nothing
    Refused {
        number: Refusal,
    },
    // the post or fetch placed its order
    Accepted,
    // the step was of a worker without an order: it touched nothing and is not counted
    Idle,
    // the step was counted, and there is nothing more to tell
    Worked,
    // the step was counted, and an order of this worker has its point: a step's number at which the order took effect
    Point {
        number: u32,
        worker: u8,
        kind: Kind,
    },
    // the step was counted, and it answers this worker's order: what it was, the steps counted when it was placed, its
    // point, this step's own number, and the element that a fetch got
    Answered {
        worker: u8,
        kind: Kind,
        placing: u32,
        point: u32,
        number: u32,
        element: Option<T>,
    },
}

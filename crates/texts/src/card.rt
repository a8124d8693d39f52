use pickers::frame::Frame;
use pickers::round::Round;

// What a card says: the picker that names the workers of its crew in turn. An enum has no model, so contracts go by
// `says`.
#[derive(Clone, Copy)]
pub enum Card {
    Round(Round),
    Frame(Frame),
}

mod read;

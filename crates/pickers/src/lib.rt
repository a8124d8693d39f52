// Pickers, which name the worker that goes next, and what every picker promises.
#![tactic(auto)]

mod following;
pub mod frame;
pub mod picker;
pub mod round;

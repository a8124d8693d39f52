// The words that every layer shares: refusals with their numbers, kinds with their words, elements, and the crew.
#![tactic(auto)]

pub mod bundle;
pub mod crew;
pub mod hit;
pub mod kind;
pub mod landing;
pub mod refusal;

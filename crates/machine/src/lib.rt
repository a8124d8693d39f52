// The machine that plays the wait-free queue of Kogan and Petrank: what the workers share, what each keeps for itself,
// and the one memory access that a step makes.
#![tactic(auto)]

pub mod access;
pub mod entry;
pub mod node;
pub mod queue;
pub mod stage;
pub mod step;
pub mod worked_runs;
pub mod worker;

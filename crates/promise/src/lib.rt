// What is promised of a run, in the words of calls and replies, and the abstract line of orders that keeps it.
#![tactic(auto)]

pub mod call;
pub mod line;
pub mod reply;
pub mod samples;

// What every caller knows of any reader and any line, and that it may use a line twice.
#![tactic(auto)]

pub mod lines;
pub mod readers;

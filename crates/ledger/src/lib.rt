// What is written: numbers, and the lines of ledgers and sheets, each whole into a lent output; and that a sheet's lines
// are read back as they were written.
#![tactic(auto)]

pub mod element;
mod ledger_lines;
pub mod line;
pub mod number;
pub mod output;
pub mod picker;
pub mod reading;
mod sheet_lines;

// Cards and sheets: texts cut into lines and fields, what each line says, and the fault of a text that breaks the format.
#![tactic(auto)]

pub mod card;
mod cut;
pub mod element;
pub mod fault;
pub mod fields;
pub mod heads;
mod number;
pub mod reader;
pub mod sheet;
mod workers;

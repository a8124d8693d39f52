// Order by points holds of the machine: the theorem, for every type of element and every list of calls.
#![tactic(auto)]

pub mod order;

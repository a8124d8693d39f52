// The promise of a picker, tried from outside: a picker of another kind keeps it, and a function that knows nothing
// else of a picker relies on it.
#![tactic(auto)]

pub mod earliest;
#[cfg(test)]
mod tests;
pub mod until;

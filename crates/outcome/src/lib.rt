// The outcome of a move from a row of the work table. All functions here are inner: their callers have proved what they ask for.
#![tactic(auto)]

pub mod outcomes;
pub mod reading;

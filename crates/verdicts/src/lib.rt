// What is said of a verdict of the search, in the lines that the checker and the prover write. All functions here are inner.
#![tactic(auto)]

pub mod telling;

pub use crate::telling::{write_refused, write_verdict};

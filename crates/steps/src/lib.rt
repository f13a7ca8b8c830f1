// The checker's lines of an unsafe table, read back as the words of the run. All functions here are inner: they ask for room only.
#![tactic(auto)]

pub mod runs;
pub mod texts;

pub use crate::runs::{NoRun, read_run};

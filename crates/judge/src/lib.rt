// The judge: a proof list is read once, and its rows are judged where they stand in local memory. It stands on the table, the list and what
// the judge's answer means, and on nothing that searches. `judge` is public: any bytes are taken. All other functions are inner: they ask what
// their callers prove.
#![tactic(auto)]

pub mod judging;
pub mod memory;
pub mod moves;
pub mod outcomes;
pub mod repeats;
pub mod states;

// What the later parts name.
pub use crate::judging::{Judgement, Refused, judge};

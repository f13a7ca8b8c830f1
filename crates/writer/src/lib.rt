// The list writer: turns the first rows of a work table into a proof list. `write_list` is public: any bytes, words and count are taken. All
// other functions are inner: they ask what their callers prove.
#![tactic(auto)]

pub mod calls;
pub mod fitting;
pub mod placing;
pub mod sizes;
pub mod words;

// What the later parts name.
pub use crate::calls::{Refused, write_list};

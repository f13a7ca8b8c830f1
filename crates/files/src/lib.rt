// What the programs read and write: files by name and standard input, read to their end into a lent buffer, and texts and files written whole.
// What cannot be done is said in one line on standard error. All functions here are inner. No contract can say which bytes are read or
// written: the system's calls promise nothing of it. The programs' handles are parameters one by one, as the library's calls take them.
#![tactic(auto)]

mod failing;
pub mod names;
pub mod reading;
mod system;
pub mod writing;

pub use crate::names::Argument;
pub use crate::reading::read_standard;
pub use crate::writing::write_output;

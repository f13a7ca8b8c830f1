// What a cautious caller uses: the search with what confirms its answer, one after the other in lent memory. `search_and_judge` and `search_and_replay` are
// public: any bytes and any words are taken. The other functions are inner.
#![tactic(auto)]

pub mod judged;
pub mod replayed;

// What the later parts name.
pub use crate::judged::{Accepted, NotAccepted, search_and_judge};
pub use crate::replayed::{NotReached, Reached, search_and_replay};

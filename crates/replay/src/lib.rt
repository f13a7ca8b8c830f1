// The replay: the words of a run are played one by one, from the start with empty channels. It stands on the table and on what playing
// means, and on nothing that finds runs. A file for each subject; definitions that the contracts cite in specs/, their laws in proofs/.
#![tactic(auto)]

pub mod queues;
pub mod replays;
pub mod turns;

// The public call, which asks nothing, and its answer. All else is inner.
pub use crate::replays::{Ending, Refused, replay};

// Rows as a state and lists of masks, the outcome of a move from a row, and one row in another: definitions and laws, and what every outcome needs:
// the atom that a send adds, what a receive leaves, what a move changes, and the look for a row that contains the outcome.
#![tactic(auto)]

pub mod changes;
pub mod look;
pub mod receives;
pub mod sends;

pub use crate::changes::Changed;
pub use crate::look::{Outcome, Rows, is_covered};
pub use crate::receives::received_into;
pub use crate::sends::sent_atom;

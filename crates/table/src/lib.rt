// The table check, and what a good table holds. Any bytes are taken; each gets its one answer: a good table's shape, or the first refusal.
// A file for each subject; definitions that the contracts cite in specs/, their laws in proofs/.
#![tactic(auto)]

pub mod bads;
pub mod checks;
pub mod faults;
pub mod fields;
pub mod good;
pub mod told;
pub mod transitions;

// What the later parts name. Public calls, which ask nothing: check_table, Table::check, Table::is_bad, Refusal::place and the conversions
// of a Fault, of a Refusal and of a Kind. The others are inner: each asks what its callers prove.
pub use crate::checks::{Shape, check_table};
pub use crate::faults::{Fault, Refusal};
pub use crate::good::Table;
pub use crate::told::Told;
pub use crate::transitions::{Operation, Transition, source_at, transition_at};

// The search of a table. Public is `searches::search`; all other functions here are inner: their callers have proved what they ask for.
#![tactic(auto, using(crate::proofs::StandingLaws::row_counts))]

pub mod passes;
pub mod runs;
pub mod searches;
pub mod visits;

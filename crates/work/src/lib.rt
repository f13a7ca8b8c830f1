// The work table: rows in lent words, read in place and appended. All functions here are inner: their callers have proved what they ask for.
#![tactic(auto)]

pub mod appending;
pub mod places;
pub mod reading;
pub mod writing;

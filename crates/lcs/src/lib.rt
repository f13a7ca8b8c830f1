// The library. Each function is thin: it calls a proved one and lays the answer out as include/lcs.h says. The crate lcs_c hands them to C and Rust programs.
// Counts go out by `as`: std has no From that leads from usize to u32 or u64, nor from u64 to usize.
#![tactic(auto)]

pub mod expressions;
pub mod judges;
mod outs;
pub mod replays;
pub mod searches;
pub mod tables;
pub mod writes;

// Input read to its end. All functions here are inner.
#![tactic(auto)]

pub mod reading;

pub use crate::reading::read_input;

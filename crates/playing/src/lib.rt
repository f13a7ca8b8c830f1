// Runs as words: what a word says, and definitions and laws of how words are played by the plain rule.
#![tactic(auto)]

pub mod words;

pub use crate::words::Step;

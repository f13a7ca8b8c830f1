// What the programs write: texts put into a lent buffer of bytes, from a place on. Each function answers the place behind its text and
// asks for no more than room and a good table. All functions here are inner.
#![tactic(auto)]

pub mod lines;
pub mod steps;
pub mod texts;

pub use crate::lines::Line;

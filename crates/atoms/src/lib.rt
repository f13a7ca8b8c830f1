// Atoms and products: containment, receive, and the normal form. All functions here are inner: their callers have proved what they ask for.
#![tactic(auto)]

pub mod masks;
pub mod products;

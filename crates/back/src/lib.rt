// Going back over one move of a run that is rebuilt from its end. All functions here are inner: their callers have proved what they ask for.
#![tactic(auto)]

pub mod moves;
pub mod needs;
pub mod tails;

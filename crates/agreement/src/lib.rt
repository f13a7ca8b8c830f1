// What ties search, judge and replay together. Laws only; there is no code.
#![tactic(auto)]

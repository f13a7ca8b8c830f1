// The channels' contents in local memory: definitions and laws that replay and the rebuilt run share. There is no code.
#![tactic(auto)]

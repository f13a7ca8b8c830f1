// What the search finds for a system, and the run that it rebuilds. Definitions and laws; there is no code.
#![tactic(auto)]

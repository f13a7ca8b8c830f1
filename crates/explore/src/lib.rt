// The search over any kind of rows: its model and what it finds. Definitions and laws; there is no code.
#![tactic(auto)]

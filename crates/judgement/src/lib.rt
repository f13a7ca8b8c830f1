// What the judge answers of a list of rows, and what it means. Definitions and laws; there is no code.
#![tactic(auto)]

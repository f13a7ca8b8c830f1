// What the models of several crates share: choices and tests. Definitions in specs/, their laws in proofs/; there is no code.
#![tactic(auto)]

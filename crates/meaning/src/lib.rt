// What a system, a run, a product and a row mean. Definitions in specs/, their laws in proofs/; there is no code.
#![tactic(auto)]

// Demand 3 of document 01, said of the code. It is definitions and proofs alone.
#![tactic(auto)]

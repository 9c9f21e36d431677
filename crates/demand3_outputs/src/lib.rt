// Demand 3 of document 01, said of what is given out: a byte run's answers and a printed tree. It is definitions and proofs alone.
#![tactic(auto)]

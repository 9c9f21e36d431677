// Request A.2, masses that count lanterns, said of what is given out: a byte run's answers and a printed tree. It is definitions and proofs alone.
#![tactic(auto)]

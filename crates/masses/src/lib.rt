// Request A.2, masses that count lanterns, said of the code. It is definitions and proofs alone.
#![tactic(auto)]

// Demand 3 of document 01, said of what an archive prints. It is definitions and proofs alone.
#![tactic(auto)]

// The random cut tree of the paper: definitions (specs/) and theorems (proofs/) that the code above is proved against. No code.
#![tactic(auto)]

// A sampled tree over any coordinates: its calls, and that an arrival is the bare calls that it counts as. It is definitions and proofs alone.
#![tactic(auto)]

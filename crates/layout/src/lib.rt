// How a tree and its table lie in arrays, slot by slot. Definitions and laws only; there is no code.
#![tactic(auto)]

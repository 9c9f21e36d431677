// The cut tree over document 01's readings: what its coordinates, points and cuts are. Definitions and laws only; there is no code.
#![tactic(auto)]

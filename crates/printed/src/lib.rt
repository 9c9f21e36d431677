// The printed tree of document 01, as bytes. It is definitions alone: `listing` prints it.
#![tactic(auto)]

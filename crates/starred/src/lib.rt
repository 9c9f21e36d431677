// The starred cases of document 01 ('Lanterns to try'): one computed check over one table, in specs/. There is no code.
#![tactic(auto)]

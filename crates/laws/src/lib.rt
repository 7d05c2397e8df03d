// Facts that several crates' proofs cite: on tests, byte lists, ladders of checks and tables. There is no code here.
#![tactic(auto)]

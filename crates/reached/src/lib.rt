// What holds of the states that a token can reach. There is no code here.
#![tactic(auto)]

// The record decides: definitions and the theorem. There is no code here.
#![tactic(auto)]

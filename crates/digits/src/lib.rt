// Bytes in hex, and numbers by their digits, both ways.
#![tactic(auto)]

pub mod hex;
pub mod number;

// The words of the desk's language: what a line states, and how its answer is put. It knows no token, only a token's parts.
#![tactic(auto)]

pub mod asked;
pub mod body;
pub mod expected;
pub mod intake;
mod labelled;
pub mod personalisation;
pub mod send;
pub mod state;
mod stated;

// Room for the longest answer.
pub const ANSWER: usize = 1024;

// The most bytes that the hex of a line writes.
pub const BYTES: usize = words::LINE / 2;

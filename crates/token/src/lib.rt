// The token: what it keeps, what may happen to it, and one step of it.
#![tactic(auto)]

mod after;
mod limits;
pub mod plan;
pub mod state;
pub mod step;

//! StartPool on the engine's started pools and its board.
#![tactic(auto)]

mod met;
mod ready;
mod sizes;
mod starting;

pub use starting::start;

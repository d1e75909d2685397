//! The plain step of all calls that have code, on the engine's state.
#![tactic(auto)]

mod dispatch;
mod inside;
mod start;

pub use dispatch::{has_code, plain_step};

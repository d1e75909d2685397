//! The engine closes: all devices stand in one rack again, and keep its state.
#![tactic(auto)]

mod close;
mod gather;

pub use close::close_board;

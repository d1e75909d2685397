//! The engine begins on a rack: each device is synced and read, each pool that was found goes to a rack of its own, and the board tells
//! of the state.
#![tactic(auto)]

mod begin;
mod boarded;
mod rejoin;
mod rows;
mod told;

pub use begin::{Begun, begin_board};
pub use rejoin::join_back;

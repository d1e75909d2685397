//! CreatePool on the engine's started pools and its board.
#![tactic(auto)]

mod creating;
mod own;

pub use creating::create;

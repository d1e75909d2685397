//! RenamePool on the engine's started pools and its board.
#![tactic(auto)]

mod answers;
mod on_all;
mod ready;
mod tables;

pub use on_all::rename;

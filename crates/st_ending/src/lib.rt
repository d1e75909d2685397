//! DestroyPool on the engine's started pools and its board.
#![tactic(auto)]

mod run;
mod tables;

pub use run::destroy;

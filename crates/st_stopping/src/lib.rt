//! StopPool on the engine's started pools and its board.
#![tactic(auto)]

mod info;
mod run;
mod tables;

pub use run::stop;

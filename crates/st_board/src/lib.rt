//! The engine's board: the table of pools, the pools that aren't started, each on its devices, and the free devices. It goes out whole
//! with a ticket for all pools, and comes back with its release.
#![tactic(auto)]

mod board;
mod changes;

pub use board::EngineBoard;

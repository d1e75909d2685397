//! A new pool on free devices of the engine.
#![tactic(auto)]

mod make;

pub use make::{Founded, found};

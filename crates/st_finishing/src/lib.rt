//! The newest records of pools that are gone are written to the devices that lack them.
#![tactic(auto)]

pub mod laws;
mod spread;

pub use spread::finish;

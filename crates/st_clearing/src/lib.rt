//! Devices that become free are cleared: of their headers and of their slots for pool records nothing is left.
#![tactic(auto)]

mod devices;
pub mod laws;

pub use devices::clear;

//! The flex record of a pool at a generation, read from its log on a device.
#![tactic(auto)]

pub mod laws;
mod read;
mod replay;

pub use read::flex_at;

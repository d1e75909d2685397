//! The bytes of a device, by blocks, of which those that were written are kept.
#![tactic(auto)]

mod blocks;
mod room;

pub use blocks::Blocks;

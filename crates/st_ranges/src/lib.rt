//! Writes on a rack, told by the ranges of bytes that they touch, and where the blocks of a table lie.
#![tactic(auto)]

mod write;

pub use write::{write_bytes, write_synced};

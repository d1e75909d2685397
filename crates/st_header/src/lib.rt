//! The header of a device: which pool it belongs to.
#![tactic(auto)]

mod header;
pub mod laws;

pub use header::{header_bytes, read_header};

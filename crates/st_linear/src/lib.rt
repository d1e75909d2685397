//! The blocks of several segments as one row of blocks: where the b-th of them lies.
#![tactic(auto)]

mod laws;
mod table;

pub use laws::{devices_apart, extension_keeps_places, places_differ};
pub use table::LinearTable;

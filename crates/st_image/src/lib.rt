//! What the devices of a pool stand for, and whether they keep its state: definitions, and laws in `laws`.
//!
//! But for the areas of a device nothing here runs. Sealed texts are read as functions, records as relations on their bytes, and the
//! state is a function of the records and of the cells' bytes.
#![tactic(auto)]

mod areas;
pub mod laws;

pub use areas::{flex_area, pool_area};

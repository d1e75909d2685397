//! The data tier of a pool: which blocks its devices give for data, and which of them are in use.
#![tactic(auto)]

mod add;
mod laws;
mod segments;
mod tier;

pub use laws::blocks_lie_on_devices;
pub use tier::DataTier;

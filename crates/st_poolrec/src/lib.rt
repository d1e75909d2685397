//! The record of a pool: its settings, its devices, and which of their blocks it has taken.
//!
//! `encode` gives the one spelling of a record. `decode` gives the record whose spelling the bytes
//! are, and `NotARecord` exactly where there is none.
#![tactic(auto)]

mod conditions;
mod head;
pub mod laws;
mod record;

pub use conditions::is_record;
pub use record::{PoolRec, decode, encode, encode_v1};
pub use st_recrows::RecFault;

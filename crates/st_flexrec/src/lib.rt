//! The flex record of a pool: its filesystems, their mappings and the cells that these share.
//!
//! `encode` gives the one spelling of a record. `decode` gives the record of a generation whose
//! spelling the bytes are, and `NotARecord` exactly where there is none.
#![tactic(auto)]

mod cells;
mod conditions;
mod filesystems;
mod head;
pub mod laws;
mod mappings;
mod merges;
mod order;
mod record;
mod rows;

pub use conditions::{is_within, keeps_conditions};
pub use record::{FlexRec, decode, encode, encode_v1};
pub use rows::{CellRow, CellRows, FsRows, MapRow, MapRows};
pub use st_recrows::RecFault;

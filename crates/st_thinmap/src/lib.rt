//! The thin map of a pool: which cell each block of each filesystem is mapped to, and where the cell lies.
#![tactic(auto)]

mod copies;
mod dropped;
mod fault;
mod map;
mod mapping;
mod order;
mod plan;
mod rows;
mod uses;
mod write;

pub use fault::{MapFault, PlanFault};
pub use map::{CellList, ThinMap};
pub use mapping::Mapping;
pub use plan::{Fresh, Plan};

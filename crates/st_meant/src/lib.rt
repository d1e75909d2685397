//! Which pool a start means, as the table tells it, and the table after each thing that a start may find.
#![tactic(auto)]

mod laws;
mod meant;
mod tables;

pub use laws::{start_makes, tables_of_a_start};
pub use meant::{Meant, pool_meant};
pub use tables::{Tables, tables_of};

//! The engine without devices: cells and a table that keep the model's state, and the calls on the
//! pieces of a part.
#![tactic(auto)]

mod cell;
mod create_pool;
mod known;
mod state_report;
mod table;

pub use cell::PlainCell;
pub use create_pool::create;
pub use state_report::report;
pub use table::PlainTable;

//! The table of pools: the names, the stopped pools, the devices of the rack with the pool that
//! uses each, and the next serial. It makes no device call. Look-ups are by halving; a change is
//! made in place, of memory that was prepared. `Table::add` has the first of the changes' clauses.
#![tactic(auto)]

mod device;
mod halted;
mod laws;
mod pool;
mod roster;
mod sorted;
mod table;

pub use halted::{HaltedInfo, HaltedMode};
pub use laws::{changes_as_the_model, keeps_as_the_model, tells_as_the_model, tells_of_each_pool};
pub use table::Table;

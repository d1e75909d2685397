//! What a ticket of the lock wants, which wants may be granted beside one another, and, in specs/,
//! the rule that a lock on one pool or on all keeps.
#![tactic(auto)]

mod names;
mod row;
mod want;

pub use names::{Names, NamesFault, names_of_a_list};
pub use row::LockRow;
pub use want::{Mode, Want, compatible, compatible_is_symmetric};

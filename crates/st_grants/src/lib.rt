//! The core of the lock: which tickets wait, which are granted, and which may be granted next.
#![tactic(auto)]

mod grants;
mod laws;
mod rows;

pub use grants::Grants;
pub use laws::{calls_obey_the_rule, each_ticket_once, machine_is_the_rule};

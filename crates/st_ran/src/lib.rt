//! What an operation on one started pool, or a refusal, makes of all started pools and the engine's board; and where a pool stands
//! among the started ones.
#![tactic(auto)]

mod answers;
mod laws;
mod place;
mod ran;

pub use answers::{no_memory, plainly};
pub use laws::{none_has_run, one_has_run};
pub use place::place_of;
pub use ran::Ran;

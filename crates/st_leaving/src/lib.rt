//! What a started pool that leaves the others, since it has been stopped or is gone, makes of them and of the engine's board; and the
//! plain answers of a call on all.
#![tactic(auto)]

mod answers;
mod laws;

pub use answers::{changed, refused, unchanged};
pub use laws::{one_has_gone, one_has_stopped};

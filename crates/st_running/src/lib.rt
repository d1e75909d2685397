//! A call of the engine on the part that its ticket has: which calls the engine runs, which function runs each, and that what it leaves
//! may come back with its entry.
#![tactic(auto)]

mod calls;
mod laws;
mod on_all;
mod on_part;
mod report;

pub use calls::runs;
pub use laws::{board_keeps, what_comes_back};
pub use on_part::{EnginePart, RanOn, run_on};

//! What the books of a pool without filesystems tell: its state, whether they say what other books say, and what became of a call.
#![tactic(auto)]

mod alike;
mod meeting;
mod telling;

pub use alike::{are_first, are_like};
pub use meeting::{is_ending, is_making, met};
pub use telling::told;

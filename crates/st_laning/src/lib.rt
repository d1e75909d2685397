//! Lines in lanes, one after the other: each line that is a call arrives at a book by its lane's seat, runs on the devices that its ticket
//! has, and is released with its entry before the next one arrives.
#![tactic(auto)]

mod answers;
mod calling;
mod lines;
mod on_part;

pub use answers::Answer;
pub use lines::{RanLines, run_lines};

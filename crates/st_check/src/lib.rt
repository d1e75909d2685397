//! The modes that run no call: a check of each line's form, and a script from a number.
#![tactic(auto)]

mod check;
mod generate;
mod summary;
mod verdict;

pub use check::check_lines;
pub use generate::gen_lines;
pub use summary::{count_ok, print_summary};
pub use verdict::fault_reply;

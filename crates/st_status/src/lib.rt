//! How a run of the program ended: its exit status, and the line that tells of it.
#![tactic(auto)]

mod status;
mod told;

pub use status::Status;
pub use told::{exit_status, status_line};

//! The log of the lock and the histories of the engine: which logs may be, and what they leave.
#![tactic(auto)]

mod laws;
mod log;

pub use laws::{entries_go_over, granted_is_live, logs_agree_on_held, own_events_tell};
pub use log::{Event, Log};

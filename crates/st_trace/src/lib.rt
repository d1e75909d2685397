//! The trace: a line of JSON for each event of the log.
#![tactic(auto)]

mod call;
mod event;
mod fs_call;
mod pool_call;
mod sector_call;
mod values;

pub use event::trace_line;

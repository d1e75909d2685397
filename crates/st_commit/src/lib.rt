//! The record of a pool on its devices, and what a crash leaves of it.
#![tactic(auto)]

mod finding;
pub mod laws;
mod mending;
mod operate;
mod settle;
mod write;

pub use finding::newest_of;
pub use mending::repair;
pub use operate::{commit_by_rule, commit_checkpoint, commit_delta, commit_first};
pub use settle::sync_all;
pub use write::commit;

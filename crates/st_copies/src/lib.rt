//! Copies of states: the plain program tries a call on a copy, and makes new states of the parts of old ones.
#![tactic(auto)]

mod parts;
mod pools;

pub use parts::{cache_copy, filesystems_copy, fs_copy, mode_copy, numbers_copy};
pub use pools::{pool_copy, state_copy};

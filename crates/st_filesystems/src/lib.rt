//! What the calls that make filesystems make of a pool that is up, as a plain program.
#![tactic(auto)]

mod create;
mod find;
mod new;
mod snapshot;

pub use create::create_filesystems;
pub use find::fs_at;
pub use snapshot::snapshot_filesystem;

//! What the call that ends filesystems makes of a pool that is up, as a plain program.
#![tactic(auto)]

mod destroy;
mod left;
mod names;

pub use destroy::destroy_filesystems;

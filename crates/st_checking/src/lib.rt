//! What a check makes of a pool that is up: it and its filesystems grow, as a plain program.
#![tactic(auto)]

mod check;
mod sizes;

pub use check::check_pool;

//! Calls within a pool, run on the pool of their name, as a plain program.
#![tactic(auto)]

mod inside;
mod place;

pub use inside::on_pool;
pub use place::{not_up, place_of};

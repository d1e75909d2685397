//! The engine's step as a plain program, equal to its definition. It may copy; it is for small inputs and for tests.
#![tactic(auto)]

mod add_devices;
mod create_pool;
mod dispatch;
mod laws;
mod place;
mod reports;
mod tiers;

pub use dispatch::step;
pub use laws::{
    merges_are_their_own, merges_have_no_mark, merges_keep_pools_whole, refusals_change_nothing,
};

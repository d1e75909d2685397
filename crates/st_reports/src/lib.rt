//! The reports of several pools, as a plain program.
#![tactic(auto)]

mod names;
mod pools;
mod reports;

pub use reports::pool_reports;

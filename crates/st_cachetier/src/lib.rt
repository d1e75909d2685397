//! The cache tier of a pool: copies of cells on its cache devices, which equal the cells.
#![tactic(auto)]

mod making;
mod reading;
mod tier;
mod writing;

pub use tier::CacheTier;

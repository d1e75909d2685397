//! The first records of a pool on its devices: what a crash leaves at any moment while a pool is made.
#![tactic(auto)]

mod first;
mod headers;
pub mod laws;
mod making;

pub use first::{First, first_books, first_flex, spell_first};
pub use making::make;

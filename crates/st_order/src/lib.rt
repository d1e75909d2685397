//! Lists in byte order of a text of each item, each text once: search by halving.
#![tactic(auto)]

mod sorted;

pub use sorted::{Keyed, is_rising, search};

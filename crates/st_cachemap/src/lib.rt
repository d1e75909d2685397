//! The cache list: which cells are cached, where, and which was used last.
#![tactic(auto)]

mod answer;
mod cache_map;
mod slots;

pub use answer::Touch;
pub use cache_map::CacheMap;

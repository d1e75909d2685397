//! Laws of a rack on which the pools of a state were found: its devices part into those of each known pool and the free ones. They do
//! nothing when they run.
#![tactic(auto)]

pub mod laws;

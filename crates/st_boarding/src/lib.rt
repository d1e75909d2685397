//! Laws of a rack that was divided: its parts keep the table of the state that was found on it. They do nothing when they run.
#![tactic(auto)]

pub mod laws;

//! What blank devices stand for: laws. Nothing here does anything when it runs.
#![tactic(auto)]

pub mod laws;

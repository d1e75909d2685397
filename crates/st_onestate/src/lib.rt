//! A law of what the devices of a rack stand for: it is one state. It does nothing when it runs.
#![tactic(auto)]

pub mod laws;

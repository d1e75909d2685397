//! A rack is divided: each pool that was found on it goes to a rack of its own, and the devices that no pool uses stay.
#![tactic(auto)]

mod dividing;

pub use dividing::divide;

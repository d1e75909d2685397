//! A book whose tickets come one after the other: a call arrives, is granted what it wants, and gives it back with its entry, before the
//! next one arrives. It is generic over cells and table.
#![tactic(auto)]

mod granted;
mod home;

pub use granted::{Out, Taken};
pub use home::{Closed, Home};

//! A rack is opened: each device is synced and read, and pools that are gone are finished.
#![tactic(auto)]

mod opening;

pub use opening::open;

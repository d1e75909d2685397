//! What each device of a rack shows of pools: its header and its slots for records, as plain values.
//!
//! A look is what is read of one device, once; whoever judges pools needs the looks and no rack.
#![tactic(auto)]

mod device;
mod look;
mod rack;
mod serials;

pub use look::{DevLook, Looks};
pub use rack::look_at_all;
pub use serials::{next_serial, serial_above};

//! Racks in memory.
#![tactic(auto)]

mod memrack;
mod nofault;
mod one_device;
mod record;
mod slab;

pub use memrack::MemRack;
pub use nofault::NoFaultRack;
pub use record::{DeviceCall, Record};
pub use slab::Slab;
pub use st_sparse::{How, Kind, Pick};

//! Devices in order of their paths, with every state that they have had, for racks to stand on.
#![tactic(auto)]

mod device;
mod past;
mod shelf;
mod told;

pub use device::Device;
pub use past::{Past, copied, remember, remember_joined};
pub use shelf::{find, first_of, insert, take_in, take_out};
pub use told::{Text, Told, tell_settled, tell_write};

//! What the devices of a rack stand for: the known pools, those that are gone, and the next serial.
#![tactic(auto)]

mod assemble;
mod fault;
mod taking;
mod told;
mod whole;

pub use assemble::found;
pub use fault::FoundFault;
pub use taking::Found;

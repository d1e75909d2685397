//! The flex area of a device: a checkpoint in each of two slots, followed by deltas.
#![tactic(auto)]

mod area;
mod choice;
mod find;
mod write;

pub use area::{FlexArea, Tail};
pub use choice::may_follow;
pub use find::{Begun, begun_at, sectors_of, serial_of};
pub use write::{append, checkpoint};

//! A device in memory that keeps the sectors that were written, and fails where it is told to.
#![tactic(auto)]

mod arms;
mod kinds;
mod lay;
mod sectors;
mod sparse;
mod torn;

pub use arms::{Arm, Arms};
pub use kinds::{How, Kind, Pick};
pub use sectors::Sectors;
pub use sparse::{Sparse, WriteFault};
pub use torn::Torn;

//! What a stop, a start or a failed write makes of a pool, as a plain program: its merge, and its cache cold.
#![tactic(auto)]

mod halting;
mod kept;
mod merging;

pub use halting::{cool, halt, settle};
pub use kept::with_filesystems;
pub use merging::{is_origin, merge};

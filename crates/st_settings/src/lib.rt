//! What the calls that set something make of a pool that is up, as a plain program.
#![tactic(auto)]

mod checks;
mod filesystem;
mod place;
mod pool;

pub use checks::{is_below, is_no_size, over_provision, sizes, worn};
pub use filesystem::{rename_filesystem, set_merge, set_size_limit};
pub use place::place_of_fs;
pub use pool::{pool_report, set_fs_limit, set_overprovisioning};

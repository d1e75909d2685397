//! What a filesystem's sectors read as, and what a read makes of its pool, as a plain program.
#![tactic(auto)]

mod cache;
mod content;
mod read;
mod slices;
mod stretch;

pub use cache::promoted;
pub use content::block_bytes;
pub use read::{fs_read, is_out_of_range};
pub use slices::{firsts, rest};
pub use stretch::{Stretch, stretches};

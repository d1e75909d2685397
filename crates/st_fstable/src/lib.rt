//! The filesystems of a pool in order of creation, found by serial and by name by halving. `insert` alone takes memory.
#![tactic(auto)]

mod names;
mod rows;
mod table;

pub use table::FsTable;

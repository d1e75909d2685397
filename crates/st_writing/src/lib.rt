//! What a write of a filesystem's sectors makes of its pool, as a plain program.
#![tactic(auto)]

mod carried;
mod cells;
mod payload;
mod plan;
mod write;

pub use write::fs_write;

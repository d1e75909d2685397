//! Hands out the free blocks of devices as segments, each block once, in the order in which they
//! were added.
#![tactic(auto)]

mod alloc;
mod fault;
mod laws;
mod part;

pub use alloc::SegAlloc;
pub use fault::SegFault;
pub use laws::segments_never_overlap;

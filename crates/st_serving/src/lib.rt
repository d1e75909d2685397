//! A call's way through the lock: its job takes the memory of the want and of the entry, arrives, waits for its grant, and releases
//! what it has with its entry. It is generic over cells and table.
#![tactic(auto)]

mod serving;

pub use serving::{Job, Running, Waiting, arrive, job_of, release, wait};

//! The engine: the lock on some pools or on all, over pools on their devices and the engine's board. It may wait for a grant.
#![tactic(auto)]

mod call;
mod closing;
mod engine;

pub use call::Answer;
pub use closing::Closed;
pub use engine::{Engine, EngineSeat};

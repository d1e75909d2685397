//! The reports of a pool and of the engine as JSON, and identities in UUID form.
#![tactic(auto)]

mod engine;
mod identity;
mod pool;
mod values;

pub use engine::put_engine;
pub use identity::put_uuid;
pub use pool::{put_pool, put_pools};
pub use values::{put_count_or_null, put_paths};

//! Calls on pools as a whole, run on the engine's state, as a plain program.
#![tactic(auto)]

mod cycle;
mod destroy;
mod rename;
mod stop;

pub use cycle::power_cycle;
pub use destroy::destroy_pool;
pub use rename::rename_pool;
pub use stop::stop_pool;

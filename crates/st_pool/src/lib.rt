//! A pool on its devices: what each operation answers, what it leaves, and what a crash leaves at any moment of it.
#![tactic(auto)]

mod answers;
mod beginning;
mod cell;
mod ended;
mod ending;
mod flight;
mod halted;
mod made;
mod making;
mod meeting;
mod planning;
mod pool;
mod renaming;
mod reply;
mod started;
mod starting;
mod vanishing;

pub use ended::Ended;
pub use flight::Flight;
pub use halted::Halted;
pub use made::Made;
pub use pool::Pool;
pub use reply::PoolReply;
pub use started::Started;

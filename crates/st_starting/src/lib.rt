//! A pool is started on its devices: they are synced and read, and the newest record is written where it is missing.
#![tactic(auto)]

mod finding;
pub mod laws;
mod outcome;
mod rows;
mod starting;

pub use finding::{Finding, Newest};
pub use outcome::Start;
pub use starting::{finish, search};

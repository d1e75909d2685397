//! Where bytes come from and go to, and the lines of a text.
#![tactic(auto)]

mod laws;
mod limit;
mod lines;
mod memory;
mod outlet;
mod put;
mod read;
mod stream;

pub use laws::{first_limit_stays, lines_give_back};
pub use limit::Limit;
pub use lines::Lines;
pub use memory::{MemorySink, MemorySource};
pub use outlet::{Outlet, WriteStop};
pub use put::put_all;
pub use read::{ReadStop, read_lines};
pub use stream::{Failed, Reading, Sink, Source, Writing};

//! The records of a started pool, and a commit of the next ones: what a crash leaves at any moment of it.
#![tactic(auto)]

mod books;
mod committing;
mod spelling;

pub use books::{Books, Next};
pub use committing::commit_next;
pub use spelling::spell_next;

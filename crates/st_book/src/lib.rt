//! The book: the log of the lock, and the pools and the table that are at home. What it holds
//! stands for the replay of its log at every moment at which it is whole.
#![tactic(auto)]

mod back;
mod book;
mod home;
mod laws;
mod lent;
mod lists;
mod noted;
mod part;
mod ready;
mod showing;

pub use book::Book;
pub use laws::part_fits;
pub use lent::Lent;
pub use noted::{Noted, Notes};
pub use part::{Cells, InfoList, Part, Peek};
pub use st_history::{Event, Log};

//! A book that is lent to one seat at a time, in the order in which the seats ask.
//!
//! The book has a list of events, the log. A seat takes the book, appends events of its own number, and puts the book
//! back. Seats are split off for other threads and joined again. Contracts see a seat as what it knows (`SeatView`):
//! whatever other seats do meanwhile, the log begins with what the seat has seen, and has of its number just its own
//! events.
#![tactic(auto)]

mod ending;
mod kinds;
mod knowledge;
mod logged;
mod parting;
mod seat;
mod steps;
mod turn;
mod waiting;

pub use knowledge::Claim;
pub use logged::Logged;
pub use seat::{SeatOf, TurnSeat};
pub use turn::{Turn, Vacant};

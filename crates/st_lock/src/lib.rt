//! The lock on some pools or on all: a book that many seats share by turns.
#![tactic(auto)]

mod bell;
mod closing;
mod desk;
mod guard;
mod laws;
mod lock;
mod seat;
mod shut;

pub use desk::{Desk, Opening};
pub use guard::{Guard, Ticket, Tried};
pub use laws::part_stays;
pub use lock::AllOrSome;
pub use seat::Seat;
pub use shut::Shut;

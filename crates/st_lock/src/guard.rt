use st_book::Part;
use st_model::{Board, Cell};

/// What a seat has from its arrival to its grant.
pub struct Ticket {
    pub number: u64,
}

/// What a seat has from its grant to its release.
pub struct Guard<C: Cell, T: Board> {
    pub ticket: u64,
    pub part: Part<C, T>,
}

/// What became of a ticket that tried.
pub enum Tried<C: Cell, T: Board> {
    Granted(Guard<C, T>),
    /// The ticket waits; with the least ticket that keeps it back.
    NotYet(Ticket, u64),
}

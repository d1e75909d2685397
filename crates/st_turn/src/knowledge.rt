// What the rule of the turn knows of a seat. No value of these types is made: they are the views of the table.
use std::collections::LinkedList;

/// Where a seat stands.
pub enum Place {
    /// It has no ticket.
    Out,
    /// It has this ticket, and waits.
    Waiting(u64),
    /// Its ticket is served, and the book is out with it.
    InTurn(u64),
    /// It is the only seat, and the book is out with it.
    Last,
    /// It was joined into another.
    Spent,
}

/// A seat's number, and the events that the log has of it.
pub struct Claim<E> {
    pub number: u64,
    pub events: LinkedList<E>,
}

/// The numbers that a seat answers for.
pub struct Holding<E> {
    /// Its own first, then those of the seats that were joined into it.
    pub claims: LinkedList<Claim<E>>,
    /// Drawn for a seat that is not split off yet.
    pub drawn: LinkedList<u64>,
    /// Those of the seats that were split off it, or off one that it took over.
    pub made: LinkedList<u64>,
    /// How many were dealt in all when it last looked.
    pub counted: u64,
    /// It found that it holds all.
    pub alone: bool,
}

/// What a seat knows.
pub struct Knowledge<E, O> {
    pub place: Place,
    pub holding: Holding<E>,
    /// The log, as far as it has seen it.
    pub seen: LinkedList<E>,
    /// The log, as far as a seat that it just took in had seen it.
    pub also: LinkedList<E>,
    pub opening: Option<O>,
}

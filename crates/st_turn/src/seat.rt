ghost use Rattle.std.specs.Prelude.{◌≡◌};

use crate::knowledge::Knowledge;
use crate::logged::Logged;
use atomic_table::Seat;
use std::marker::Model;

/// A seat of a turn, for one thread at a time: `TurnSeat` says it of a book.
///
/// Contracts see it as a `SeatView`. It is not `Drop`, so none is lost by mistake: it ends by `join` or `close`.
pub struct SeatOf<B, E, O> {
    pub(crate) seat: Seat<Option<B>, Knowledge<E, O>>,
    pub(crate) number: u64,
    // How many numbers it answers for.
    pub(crate) claimed: u64,
    // The book is out without a ticket.
    pub(crate) last: bool,
}

/// A seat of a turn over the book B.
pub type TurnSeat<B> = SeatOf<B, <B as Logged>::Event, <B as Logged>::Opening>;

impl<B, E, O> Model for SeatOf<B, E, O> {
    ghost use Rattle.st_turn.specs.Views.{SeatView};

    ghost Value = { SeatView E O };

    ghost use Rattle.st_turn.specs.Seated.{seat_view, IsSeat};

    ghost view = { λ s. seat_view s.seat.table_id s.number s.seat.me.0 };

    ghost invariant = { λ s. IsSeat s.seat.me s.number s.claimed s.last };
}

impl<B, E, O> SeatOf<B, E, O> {
    /// The seat's number: 0 for the first seat, and for another the one that its split drew.
    pub fn number(&self) -> u64
        ensures { result ≡ self.now.number }
    {
        self.number
    }
}

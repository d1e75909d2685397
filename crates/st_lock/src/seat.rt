ghost use Rattle.std.specs.Prelude.{◌≡◌};
ghost use Rattle.st_history.specs.History.{replay};
ghost use Rattle.st_lock.specs.Opening.{events_of};
ghost use Rattle.st_lock.specs.Seats.{opened, state_at};

use crate::desk::{Desk, Opening};
use st_book::Noted;
use st_ghost::Ghost;
use st_model::{Board, Cell, EngineState};
use st_turn::{SeatOf, TurnSeat};
use std::collections::LinkedList;
use std::marker::Model;

/// A seat of the lock, for one thread at a time. Contracts see it as a `LockSeat`, out of its turn.
pub struct Seat<C: Cell, T: Board> {
    pub(crate) seat: TurnSeat<Desk<C, T>>,
}

impl<C: Cell, T: Board> Model for Seat<C, T> {
    ghost use Rattle.std.specs.Prelude.{◌≡◌, false};
    ghost use Rattle.st_lock.specs.Seats.{LockSeat, lock_seat, IsOpened};

    ghost Value = { LockSeat };

    ghost view = { λ s. lock_seat s.seat };

    ghost invariant = { λ s. (s.seat.is_in ≡ false) × IsOpened s.seat.opening };
}

/// The log, as far as the seat has seen it.
fn seen_by<B, E, O>(seat: &SeatOf<B, E, O>) -> Ghost<LinkedList<E>>
    ensures { result.value ≡ seat.now.seen }
{
    Ghost::new(seat, &())
}

/// What the log begins with.
fn opened_by<B, E, O>(seat: &SeatOf<B, E, O>) -> Ghost<Option<O>>
    ensures { result.value ≡ seat.now.opening }
{
    Ghost::new(seat, &())
}

/// The state after the log.
fn state_after(
    seen: &Ghost<LinkedList<Noted>>,
    opening: &Ghost<Option<Opening>>,
) -> Ghost<EngineState>
    ensures { result.value ≡ replay (opened opening.now.value).state (events_of seen.now.value) }
{
    Ghost::new(seen, opening)
}

impl<C: Cell, T: Board> Seat<C, T> {
    /// The state after the log, as far as the seat has seen it, for clauses alone.
    pub fn state(&self) -> Ghost<EngineState>
        ensures { result.value ≡ state_at self.now }
    {
        let seen = seen_by(&self.seat);
        let opening = opened_by(&self.seat);
        state_after(&seen, &opening)
    }
}

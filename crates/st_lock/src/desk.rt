use st_book::{Book, Noted};
use st_model::{Board, Cell, EngineState};
use st_turn::Logged;

/// The state for which the table stood at the beginning, and its slack then. No value of it is made.
pub struct Opening {
    pub state: EngineState,
    pub base: u64,
}

/// The book as a turn lends it.
pub struct Desk<C: Cell, T: Board> {
    pub(crate) book: Book<C, T>,
}

impl<C: Cell, T: Board> Logged for Desk<C, T> {
    ghost use Rattle.st_lock.specs.Opening.{noted_by, noted_of, opening_of, Fits};

    type Event = Noted;

    type Opening = Opening;

    ghost events = { λ d. noted_of d.book };

    ghost by = { λ e. noted_by e };

    ghost opens = { λ d. opening_of d.book.table };

    ghost fits = { λ d o. Fits o d.book };
}

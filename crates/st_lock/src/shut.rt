use crate::lock::AllOrSome;
use crate::seat::Seat;
use st_book::{Cells, Log};
use st_model::{Board, Cell};

/// What became of a lock that was to be closed.
pub enum Shut<C: Cell, T: Board> {
    /// It is closed: the table, the started pools and the log.
    Quiet(T, Cells<C>, Log),
    /// So many other seats were made and not joined into this one, directly or through others.
    Unjoined(AllOrSome<C, T>, Seat<C, T>, u64),
    /// The least ticket that isn't released.
    Left(AllOrSome<C, T>, Seat<C, T>, u64),
}

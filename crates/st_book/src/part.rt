use st_model::{Board, Cell};
use st_units::{RoomyList, Shared};

/// Started pools, with room for more.
pub type Cells<C> = RoomyList<C>;

/// Infos that others show too, with room for more.
pub type InfoList<I> = RoomyList<Shared<I>>;

/// What a ticket has while it is granted. It has to come back by a release.
///
/// A ticket that writes to some pools has the cells of those that are started, and the table's
/// info; one that reads some has their infos and the table's. One that writes to all has every cell
/// and the table, and one that reads all has every info and the table's.
pub struct Part<C: Cell, T: Board> {
    pub table: Option<T>,
    pub table_info: Option<Shared<T::Info>>,
    /// With places for 16 cells.
    pub cells: Cells<C>,
    pub infos: InfoList<C::Info>,
    /// A copy of an info that was due was refused: then there are no infos and no table's info.
    pub short: bool,
}

/// What is shown of the table and of each started pool.
pub struct Peek<C: Cell, T: Board> {
    pub table_info: Shared<T::Info>,
    pub infos: InfoList<C::Info>,
}

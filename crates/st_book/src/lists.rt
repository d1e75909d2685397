ghost use Rattle.std.specs.Prelude.{◌≡◌, ◌≤◌, length};
ghost use Rattle.std.proofs.Props.{props};

use crate::part::{Cells, InfoList};
use st_model::Cell;
use st_units::NoMemory;
use std::alloc::Global;

/// How many pools may be known.
pub(crate) const MOST_POOLS: usize = 16;

/// The two lists of a part that is to come: empty, each with room for all pools.
pub(crate) struct Lists<C: Cell> {
    pub cells: Cells<C>,
    pub infos: InfoList<C::Info>,
    ghost no_cells: { length cells.items ≡ 0 } by { Prim.hlevel props },
    ghost no_infos: { length infos.items ≡ 0 } by { Prim.hlevel props },
    ghost cell_room: { 16 ≤ cells.room } by { Prim.hlevel props },
    ghost info_room: { 16 ≤ infos.room } by { Prim.hlevel props },
}

impl<C: Cell> Lists<C> {
    pub fn make(alloc: Global) -> Result<Lists<C>, NoMemory> {
        let infos = InfoList::with_room(alloc, MOST_POOLS)?;
        let cells = Cells::with_room(alloc, MOST_POOLS)?;
        Ok(Lists { cells, infos })
    }

    pub fn finish(self) {
        let Lists { cells, infos: _ } = self;
        cells.finish();
    }
}

//! A lock over plain cells, whose pools no device keeps.
ghost use Rattle.std.specs.Prelude.{◌≡◌, ◌≤◌, ◌^◌, [], ◌∷◌, true, IfOk};
ghost use Rattle.st_units.specs.declared.rows.DevRow.{DevRow};
ghost use Rattle.st_lock.specs.Opening.{IsOpening};

use st_lock::{AllOrSome, Seat};
use st_plain::{PlainCell, PlainTable};
use st_units::{DevPath, DevRow, DevRows, NoMemory, Tier};
use std::alloc::Global;

pub type PlainLock = AllOrSome<PlainCell, PlainTable>;

pub type PlainSeat = Seat<PlainCell, PlainTable>;

/// The rows of one device.
pub fn one_device(alloc: Global) -> Result<DevRows, NoMemory>
    ensures { IfOk result (λ rows. (row : DevRow) × (rows ≡ row ∷ []) × (row.sectors ≤ 2 ^ 32)) }
{
    let Ok(path) = DevPath::read(alloc, b"/dev/sim0") else {
        return Err(NoMemory);
    };
    let mut rows = DevRows::make(alloc);
    rows.push(DevRow {
        path,
        tier: Tier::DataTier,
        sectors: 65_536,
    })?;
    Ok(rows)
}

/// A table of one device and no pools.
fn one_table(alloc: Global) -> Result<PlainTable, NoMemory>
    ensures { IfOk result (λ table. (table.spare ≡ true) × IsOpening table.state) }
{
    let rows = one_device(alloc)?;
    let table = PlainTable::opening(alloc, rows)?;
    Ok(table)
}

/// A lock over a table of one device and no pools, and its first seat.
pub fn open(alloc: Global) -> Result<(PlainLock, PlainSeat), NoMemory>
    ensures { IfOk result (λ made. made.1.turn ≡ made.0) }
{
    let table = one_table(alloc)?;
    match AllOrSome::make(alloc, table) {
        Ok(made) => Ok(made),
        Err((_table, refused)) => Err(refused),
    }
}

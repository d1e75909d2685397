ghost use Rattle.std.specs.Prelude.{◌≡◌, true, false, Some, IfOk};
ghost use Rattle.st_table.specs.Table.{TablePool, changed, holding, is_taken, knows, pool_named, renamed, runs, with_instead};

use st_table::Table;
use st_units::{Name, NoMemory};
use std::alloc::Global;

/// The same table once more, ready for a change.
fn prepared(alloc: Global, table: &Table) -> Result<Table, NoMemory>
    ensures { IfOk result (λ other. other ≡ record table.now { prepared = true; spare = false }) }
{
    let mut other = table.copy(alloc)?;
    other.prepare(alloc)?;
    Ok(other)
}

/// The table, with an info to give.
fn shown(alloc: Global, table: Table) -> Result<Table, NoMemory>
    ensures { IfOk result (λ other. other ≡ record table { spare = true }) }
{
    let mut other = table;
    other.refresh(alloc)?;
    Ok(other)
}

/// The table in which the pool has the new name, with an info to give.
pub fn renamed(alloc: Global, table: &Table, name: &Name, new: &Name) -> Result<Table, NoMemory>
    requires known { knows name.now table.now.pools ≡ true }
    requires free { is_taken new.now table.now.pools ≡ false }
    ensures { IfOk result (λ other. (pool : TablePool) → pool_named name.now table.now.pools ≡ Some pool
        → other ≡ record (changed table.now (with_instead name.now (renamed new.now pool) table.now.pools)) { spare = true }) }
{
    let given = new.copy()?;
    let mut other = prepared(alloc, table)?;
    other.rename(name, given);
    shown(alloc, other)
}

/// The table in which the started pool holds the new name besides its own, with an info to give.
pub fn holding(alloc: Global, table: &Table, name: &Name, new: &Name) -> Result<Table, NoMemory>
    requires started { runs name.now table.now.pools ≡ true }
    requires free { is_taken new.now table.now.pools ≡ false }
    ensures { IfOk result (λ other. (pool : TablePool) → pool_named name.now table.now.pools ≡ Some pool
        → other ≡ record (changed table.now (with_instead name.now (holding new.now pool) table.now.pools)) { spare = true }) }
{
    let given = new.copy()?;
    let mut other = prepared(alloc, table)?;
    other.hold(name, given);
    shown(alloc, other)
}

ghost use Rattle.std.specs.Prelude.{◌≡◌, true, IfOk};
ghost use Rattle.st_table.specs.Table.{changed, knows, without};

use st_table::Table;
use st_units::{Name, NoMemory};
use std::alloc::Global;

/// The table that doesn't know the pool, with an info to give.
pub fn dropped(alloc: Global, table: &Table, name: &Name) -> Result<Table, NoMemory>
    requires known { knows name.now table.now.pools ≡ true }
    ensures { IfOk result (λ other. other ≡ record (changed table.now (without name.now table.now.pools)) { spare = true }) }
{
    let mut other = table.copy(alloc)?;
    other.prepare(alloc)?;
    other.drop_pool(name);
    other.refresh(alloc)?;
    Ok(other)
}

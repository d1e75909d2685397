ghost use Rattle.std.specs.Prelude.{◌≡◌, true, false, Some, IfOk, IfSome};
ghost use Rattle.std.specs.List.{AllByRecursion};
ghost use Rattle.st_table.specs.Table.{IsFree, TablePool, changed, halted_as, is_taken, knows, pool_named, with_instead, without};

use st_table::{HaltedInfo, Table};
use st_units::{Name, NoMemory};
use std::alloc::Global;

/// The table in which the pool is halted, with an info to give.
pub fn halted(
    alloc: Global,
    table: &Table,
    name: &Name,
    info: HaltedInfo,
) -> Result<Table, NoMemory>
    requires known { knows name.now table.now.pools ≡ true }
    requires new { IfSome info.new (λ new. is_taken new (without name.now table.now.pools) ≡ false) }
    requires free { AllByRecursion (IsFree (without name.now table.now.pools) table.now.devices) info.devs }
    ensures { IfOk result (λ other. (pool : TablePool) → pool_named name.now table.now.pools ≡ Some pool
        → other ≡ record (changed table.now (with_instead name.now (halted_as info pool) table.now.pools)) { spare = true }) }
{
    let mut other = table.copy(alloc)?;
    other.prepare(alloc)?;
    other.halt(name, info);
    other.refresh(alloc)?;
    Ok(other)
}

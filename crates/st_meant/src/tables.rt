ghost use Rattle.std.specs.Prelude.{◌≡◌, true, false, Some, None, IfOk, IfSome, option_copied};
ghost use Rattle.std.specs.List.{AllByRecursion};
ghost use Rattle.st_table.specs.Table.{IsFree, TablePool, changed, is_taken, knows, pool_named, without};
ghost use Rattle.st_meant.specs.Tables.{AreTables, MayStart, started_table};

use st_table::Table;
use st_units::{DevList, Name, NoMemory};
use std::alloc::Global;

/// The table as it is after each thing that a start may find, each with an info to give.
#[derive(Drop)]
pub struct Tables {
    /// The pool is started.
    pub started: Table,
    /// It is started under the new name of a rename in flight.
    pub renamed: Option<Table>,
    /// The pool is known no more.
    pub gone: Table,
}

/// The table in which the pool is started, under this name.
fn started(
    alloc: Global,
    table: &Table,
    name: &Name,
    new: &Name,
    devs: &DevList,
) -> Result<Table, NoMemory>
    requires known { knows name.now table.now.pools ≡ true }
    requires name { is_taken new.now (without name.now table.now.pools) ≡ false }
    requires free { AllByRecursion (IsFree (without name.now table.now.pools) table.now.devices) devs.now }
    ensures { IfOk result (λ other. (pool : TablePool) → pool_named name.now table.now.pools ≡ Some pool → other ≡ started_table table.now name.now new.now devs.now pool) }
{
    let mut other = table.copy(alloc)?;
    other.prepare(alloc)?;
    other.wake(name, new.copy()?, devs.copy(alloc)?);
    other.refresh(alloc)?;
    Ok(other)
}

/// The table in which it is started under the new name, where there is one.
fn renamed(
    alloc: Global,
    table: &Table,
    name: &Name,
    new: &Option<Name>,
    devs: &DevList,
) -> Result<Option<Table>, NoMemory>
    requires known { knows name.now table.now.pools ≡ true }
    requires name { IfSome new.now (λ new. is_taken new (without name.now table.now.pools) ≡ false) }
    requires free { AllByRecursion (IsFree (without name.now table.now.pools) table.now.devices) devs.now }
    ensures { IfOk result (λ other. (pool : TablePool) (given : _) → pool_named name.now table.now.pools ≡ Some pool → new.now ≡ Some given → other ≡ Some (started_table table.now name.now given devs.now pool)) }
{
    match new {
        Some(new) => Ok(Some(started(alloc, table, name, new, devs)?)),
        None => Ok(None),
    }
}

/// The table without the pool.
fn gone(alloc: Global, table: &Table, name: &Name) -> Result<Table, NoMemory>
    requires known { knows name.now table.now.pools ≡ true }
    ensures { IfOk result (λ other. other ≡ record (changed table.now (without name.now table.now.pools)) { spare = true }) }
{
    let mut other = table.copy(alloc)?;
    other.prepare(alloc)?;
    other.drop_pool(name);
    other.refresh(alloc)?;
    Ok(other)
}

/// The tables for a start of the pool of this name, which isn't started.
pub fn tables_of(alloc: Global, table: &Table, name: &Name) -> Result<Tables, NoMemory>
    requires may { MayStart table.now name.now }
    ensures { IfOk result (AreTables table.now name.now) }
{
    match table.halted(name) {
        Some(info) => Ok(Tables {
            started: started(alloc, table, name, name, &info.devs)?,
            renamed: renamed(alloc, table, name, &info.new, &info.devs)?,
            gone: gone(alloc, table, name)?,
        }),
        None => unreachable!(),
    }
}

ghost use Rattle.std.specs.Prelude.{◌≡◌, ℕ, true, map, IfOk, OnOk};
ghost use Rattle.st_units.specs.declared.rows.DevRow.{DevRow};
ghost use Rattle.st_model.specs.declared.state.EngineState.{EngineState};
ghost use Rattle.st_model.specs.declared.state.PoolState.{PoolState};
ghost use Rattle.st_model.specs.Parts.{table_of};
ghost use Rattle.st_table.specs.Stands.{Stands};
ghost use Rattle.st_tabling.specs.Telling.{MayPlace, TellsOf, halted_mode, info_for, with_last};

use st_judge::{FoundList, FoundRow};
use st_table::{HaltedInfo, HaltedMode, Table, changes_as_the_model, tells_as_the_model};
use st_units::{DevList, DevPath, DevRow, DevRows, NoMemory};
use std::alloc::Global;

/// The table of a rack of these devices, on which these pools were found. It has a spare info.
pub fn table_for(
    alloc: Global,
    rows: &DevRows,
    pools: &FoundList,
    next: u64,
) -> Result<Table, NoMemory>
    requires { (e : EngineState) × TellsOf e rows.now pools.now next }
    ensures stands { IfOk result (λ table. (e : EngineState) → TellsOf e rows.now pools.now next → Stands table (table_of e)) }
    ensures spare { IfOk result (λ table. table.spare ≡ true) }
{
    let mut table = Table::make(alloc, rows, next)?;
    for i in 0..pools.len() {
        put_row(alloc, &mut table, pools.at(i))?;
    }
    table.refresh(alloc)?;
    Ok(table)
}

/// Puts a pool that was found into the table, behind those of lower serials.
fn put_row(alloc: Global, table: &mut Table, row: &FoundRow) -> Result<(), NoMemory>
    requires { (s : EngineState) × (q : PoolState) × MayPlace s q row.now table.old }
    ensures { OnOk result ((s : EngineState) (q : PoolState) → MayPlace s q row.now table.old → Stands table.new (table_of (with_last s q))) }
{
    changes_as_the_model();
    tells_as_the_model();
    let name = row.name.copy()?;
    let info = halted_for(alloc, row)?;
    table.prepare(alloc)?;
    table.add(name, row.serial, DevList::make(alloc));
    table.prepare(alloc)?;
    table.halt(&row.name, info);
    Ok(())
}

/// What the table keeps of the pool.
fn halted_for(alloc: Global, row: &FoundRow) -> Result<HaltedInfo, NoMemory>
    ensures { IfOk result (λ info. info ≡ info_for row.now) }
{
    let mode = mode_of(&row.missing)?;
    let devs = paths_of(alloc, row.devs.items())?;
    Ok(HaltedInfo {
        mode,
        devs,
        flight: DevList::make(alloc),
        new: None,
    })
}

fn mode_of(missing: &Option<DevPath>) -> Result<HaltedMode, NoMemory>
    ensures { IfOk result (λ mode. mode ≡ halted_mode missing.now) }
{
    match missing {
        None => Ok(HaltedMode::Stopped),
        Some(path) => Ok(HaltedMode::Incomplete(path.copy()?)),
    }
}

/// The paths of the rows, in order.
fn paths_of(alloc: Global, rows: &[DevRow]) -> Result<DevList, NoMemory>
    ensures { IfOk result (λ list. list ≡ map (λ (row : DevRow). row.path) rows.now) }
{
    let mut list = DevList::make(alloc);
    for i in 0..rows.len() {
        match list.push(rows[i].path.copy()?) {
            Ok(()) => {}
            Err((_, NoMemory)) => return Err(NoMemory),
        }
    }
    Ok(list)
}

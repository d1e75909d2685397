ghost use Rattle.std.specs.Prelude.{◌≡◌, [], ◌++◌, map, Some, None, IfOk, OnOk};
ghost use Rattle.st_units.specs.declared.rows.DevRow.{DevRow};
ghost use Rattle.st_model.specs.Checks.{halted};
ghost use Rattle.st_model.specs.Look.{devices_taken, name_given};
ghost use Rattle.st_table.specs.declared.halted.HaltedMode.TheVariants as modes;
ghost use Rattle.st_table.specs.Stands.{info_in};

use st_model::Call;
use st_pool::Pool;
use st_rack::Rack;
use st_table::{HaltedInfo, HaltedMode};
use st_units::{DevList, DevRow, Name, NoMemory};
use std::alloc::Global;

/// The paths of the rows.
fn paths_of(alloc: Global, rows: &[DevRow]) -> Result<DevList, NoMemory>
    ensures { IfOk result (λ list. list ≡ map (λ (row : DevRow). row.path) rows.now) }
{
    let mut list = DevList::make(alloc);
    for row in rows {
        list.push(row.path.copy()?)?;
    }
    Ok(list)
}

/// The devices that the call takes for its pool.
fn taken(alloc: Global, call: &Call) -> Result<DevList, NoMemory>
    ensures { IfOk result (λ list. list ≡ devices_taken call.now) }
{
    match call {
        Call::CreatePool { name: _, devices }
        | Call::AddDataDevs { pool: _, devices }
        | Call::InitCache { pool: _, devices }
        | Call::AddCacheDevs { pool: _, devices } => devices.copy(alloc),
        _ => Ok(DevList::make(alloc)),
    }
}

/// The name that the call gives to its pool, where that has another.
fn given(call: &Call) -> Result<Option<Name>, NoMemory>
    ensures { IfOk result (λ name. name ≡ name_given call.now) }
{
    match call {
        Call::RenamePool { name: _, new } => Ok(Some(new.copy()?)),
        _ => Ok(None),
    }
}

/// What the table keeps of a pool on these rows that was up.
fn stopped(alloc: Global, rows: &[DevRow]) -> Result<HaltedInfo, NoMemory>
    ensures { IfOk result (λ info. info ≡ record { mode = modes.Stopped; devs = map (λ (row : DevRow). row.path) rows.now ++ []; flight = []; new = None }) }
{
    let devs = paths_of(alloc, rows)?;
    Ok(HaltedInfo {
        mode: HaltedMode::Stopped,
        devs,
        flight: DevList::make(alloc),
        new: None,
    })
}

/// What the table keeps of a pool on these rows that was down with this call in flight.
fn unsettled(alloc: Global, rows: &[DevRow], call: &Call) -> Result<HaltedInfo, NoMemory>
    ensures { IfOk result (λ info. info ≡ record { mode = modes.Unsettled; devs = map (λ (row : DevRow). row.path) rows.now ++ devices_taken call.now; flight = devices_taken call.now; new = name_given call.now }) }
{
    let mut devs = paths_of(alloc, rows)?;
    devs.append(taken(alloc, call)?)?;
    let flight = taken(alloc, call)?;
    let new = given(call)?;
    Ok(HaltedInfo {
        mode: HaltedMode::Unsettled,
        devs,
        flight,
        new,
    })
}

/// What the table keeps of the pool once it is stopped.
pub fn halted_info<R: Rack>(alloc: Global, pool: &Pool<R>) -> Result<HaltedInfo, NoMemory>
    ensures { IfOk result (λ info. info_in (halted pool.now.pool) (halted pool.now.pool).mode ≡ Some info) }
{
    let rows = pool.view().devs.items();
    match pool.flight() {
        Some(call) => unsettled(alloc, rows, call),
        None => stopped(alloc, rows),
    }
}

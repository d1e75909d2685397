// Changes of the table of pools, each made where the table says that it may be.
ghost use Rattle.std.specs.Prelude.{◌≡◌, false, true, IfSome};
ghost use Rattle.st_table.specs.Table.{is_taken, without};

use crate::texts::{devices, name, path};
use st_table::{HaltedInfo, HaltedMode, Table};
use st_units::{DevList, Name, PoolSerial};
use std::alloc::Global;
use std::test::Fail;

/// Why a pool is halted.
pub(crate) enum Why {
    Stopped,
    /// With these of its devices only in the call in flight, and the name that this gives.
    Unsettled(&'static [&'static str], Option<&'static str>),
    /// This device is missing.
    Incomplete(&'static str),
}

/// A change of the table: the pool's name first, devices last.
pub(crate) enum Change {
    Add(&'static str, u64, &'static [&'static str]),
    Rename(&'static str, &'static str),
    Hold(&'static str, &'static str),
    Take(&'static str, &'static [&'static str]),
    Drop(&'static str),
    Halt(&'static str, Why, &'static [&'static str]),
    Wake(&'static str, &'static str, &'static [&'static str]),
}

fn refused() -> Result<(), Fail> {
    Err("the table says that the change may not be made".into())
}

fn add(
    table: &mut Table,
    alloc: Global,
    pool: Name,
    serial: u64,
    devs: DevList,
) -> Result<(), Fail> {
    table.prepare(alloc)?;
    if serial < 1 || serial > PoolSerial::LAST {
        return refused();
    }
    let serial = PoolSerial::of(serial);
    if table.held(&pool) || table.has_serial(serial) || !table.are_free(&devs) {
        return refused();
    }
    table.add(pool, serial, devs);
    Ok(())
}

fn rename(table: &mut Table, alloc: Global, old: &Name, new: Name) -> Result<(), Fail> {
    table.prepare(alloc)?;
    if !table.is_known(old) || table.held(&new) {
        return refused();
    }
    table.rename(old, new);
    Ok(())
}

fn hold(table: &mut Table, alloc: Global, pool: &Name, new: Name) -> Result<(), Fail> {
    table.prepare(alloc)?;
    if !table.is_started(pool) || table.held(&new) {
        return refused();
    }
    table.hold(pool, new);
    Ok(())
}

fn take(table: &mut Table, alloc: Global, pool: &Name, devs: DevList) -> Result<(), Fail> {
    table.prepare(alloc)?;
    if !table.is_started(pool) || !table.are_free(&devs) {
        return refused();
    }
    if devs.len() > 16 || table.devs_used(pool) > 16 - devs.len() {
        return refused();
    }
    table.take_devs(pool, devs);
    Ok(())
}

fn drop_pool(table: &mut Table, alloc: Global, pool: &Name) -> Result<(), Fail> {
    table.prepare(alloc)?;
    if !table.is_known(pool) {
        return refused();
    }
    table.drop_pool(pool);
    Ok(())
}

/// Whether the second name of a pool that halts is held by no other.
fn is_its_own(table: &Table, pool: &Name, new: &Option<Name>) -> bool
    ensures { result ≡ true → IfSome new.now (λ new. is_taken new (without pool.now table.now.pools) ≡ false) }
{
    match new {
        Some(new) => !table.held_beside(pool, new),
        None => true,
    }
}

fn halt(table: &mut Table, alloc: Global, pool: &Name, halted: HaltedInfo) -> Result<(), Fail> {
    table.prepare(alloc)?;
    if !table.is_known(pool) || !is_its_own(table, pool, &halted.new) {
        return refused();
    }
    if !table.are_free_beside(pool, &halted.devs) {
        return refused();
    }
    table.halt(pool, halted);
    Ok(())
}

fn wake(
    table: &mut Table,
    alloc: Global,
    old: &Name,
    new: Name,
    devs: DevList,
) -> Result<(), Fail> {
    table.prepare(alloc)?;
    if !table.is_known(old) || table.held_beside(old, &new) || !table.are_free_beside(old, &devs) {
        return refused();
    }
    table.wake(old, new, devs);
    Ok(())
}

fn second_name(alloc: Global, why: &Why) -> Result<Option<Name>, Fail> {
    match why {
        Why::Unsettled(_, Some(new)) => Ok(Some(name(alloc, new)?)),
        _ => Ok(None),
    }
}

fn in_flight(alloc: Global, why: &Why) -> Result<DevList, Fail> {
    match why {
        Why::Unsettled(flight, _) => devices(alloc, flight),
        _ => devices(alloc, &[]),
    }
}

fn mode(alloc: Global, why: &Why) -> Result<HaltedMode, Fail> {
    match why {
        Why::Stopped => Ok(HaltedMode::Stopped),
        Why::Unsettled(_, _) => Ok(HaltedMode::Unsettled),
        Why::Incomplete(missing) => Ok(HaltedMode::Incomplete(path(alloc, missing)?)),
    }
}

fn halted(alloc: Global, why: &Why, devs: DevList) -> Result<HaltedInfo, Fail> {
    Ok(HaltedInfo {
        mode: mode(alloc, why)?,
        devs,
        flight: in_flight(alloc, why)?,
        new: second_name(alloc, why)?,
    })
}

/// Makes the change, where the table says that it may be made.
pub(crate) fn make(table: &mut Table, alloc: Global, change: &Change) -> Result<(), Fail> {
    match change {
        Change::Add(pool, serial, devs) => {
            add(
                table,
                alloc,
                name(alloc, pool)?,
                *serial,
                devices(alloc, devs)?,
            )
        }
        Change::Rename(old, new) => rename(table, alloc, &name(alloc, old)?, name(alloc, new)?),
        Change::Hold(pool, new) => hold(table, alloc, &name(alloc, pool)?, name(alloc, new)?),
        Change::Take(pool, devs) => take(table, alloc, &name(alloc, pool)?, devices(alloc, devs)?),
        Change::Drop(pool) => drop_pool(table, alloc, &name(alloc, pool)?),
        Change::Halt(pool, why, devs) => {
            let info = halted(alloc, why, devices(alloc, devs)?)?;
            halt(table, alloc, &name(alloc, pool)?, info)
        }
        Change::Wake(old, new, devs) => {
            let old = name(alloc, old)?;
            wake(table, alloc, &old, name(alloc, new)?, devices(alloc, devs)?)
        }
    }
}

ghost use Rattle.std.specs.Prelude.{◌≡◌, [], ◌∷◌, ◌+◌, ◌<◌, ◌≤◌, ◌^◌, length, map, IfOk, OnOk, OnErr};
ghost use Rattle.st_model.specs.Content.{mapped_cells};
ghost use Rattle.st_model.specs.InPlace.{sectors_in};
ghost use Rattle.st_model.specs.Merged.{with_filesystems};
ghost use Rattle.st_model.specs.steps.FsWrite.{bytes_in, fs_write, puts, with_map, written};
ghost use Rattle.st_writing.specs.declared.carried.Carried.{Carried};
ghost use Rattle.st_writing.specs.inner.Carry.{begins};
ghost use Rattle.st_writing.specs.inner.Plans.{taking};

use crate::carried::{Carried, begins, put_all};
use crate::payload::{bytes_in, sectors_in};
use crate::plan::{Plan, planned, write_answer};
use st_merges::with_filesystems;
use st_model::{FsState, Given, NumberMap, Payload, PoolState, Reply};
use st_settings::place_of_fs;
use st_units::{Cause, ItemList, Name, NoMemory};
use std::alloc::Global;
use std::mem;

/// The filesystem, with this map if it is the one of the serial.
fn with_map(fs: &FsState, serial: u64, mapped: &NumberMap<u64>) -> Result<FsState, NoMemory>
    ensures { IfOk result (λ new. new ≡ with_map serial mapped.now fs.now) }
{
    let map = if fs.row.serial == serial {
        mapped
    } else {
        &fs.map
    };
    Ok(FsState {
        row: fs.row.copy()?,
        map: map.copy()?,
    })
}

/// The filesystems, of which the one of the serial has this map.
fn with_maps(
    alloc: Global,
    filesystems: &[FsState],
    serial: u64,
    mapped: &NumberMap<u64>,
) -> Result<ItemList<FsState>, NoMemory>
    ensures { IfOk result (λ list. list ≡ map (with_map serial mapped.now) filesystems.now) }
{
    let mut list = ItemList::make(alloc);
    for fs in filesystems {
        list.push(with_map(fs, serial, mapped)?)?;
    }
    Ok(list)
}

/// The pool took so many fresh cells; with none it makes no commit.
fn take(pool: &mut PoolState, taken: u64)
    requires cell { pool.old.next_cell + taken < 2 ^ 60 }
    requires commits { pool.old.commits ≤ 2 ^ 48 }
    ensures { pool.new ≡ taking taken pool.old }
{
    pool.next_cell += taken;
    if taken != 0 {
        pool.commits += 1;
    }
}

/// The pool that was carried gets these filesystems, of which the one of the serial has the map that was carried; and it
/// took so many fresh cells.
fn finish(
    carried: &mut Carried,
    alloc: Global,
    filesystems: &[FsState],
    serial: u64,
    taken: u64,
) -> Result<(), NoMemory>
    requires cell { carried.old.pool.next_cell + taken < 2 ^ 60 }
    requires commits { carried.old.pool.commits ≤ 2 ^ 48 }
    ensures { OnOk result (carried.new.pool ≡ with_filesystems (map (with_map serial carried.old.map) filesystems.now) (taking taken carried.old.pool)) }
{
    let filesystems = with_maps(alloc, filesystems, serial, &carried.map)?;
    take(&mut carried.pool, taken);
    with_filesystems(&mut carried.pool, alloc, filesystems)
}

/// What was carried before the first stretch becomes what is there after the write.
fn change(
    carried: &mut Carried,
    alloc: Global,
    pool: &PoolState,
    fs: &FsState,
    plan: &Plan,
    payload: &Payload,
) -> Result<(), NoMemory>
    requires begins { carried.old ≡ begins pool.now fs.now }
    requires cells { pool.now.next_cell ≤ 2 ^ 50 }
    requires commits { pool.now.commits ≤ 2 ^ 48 }
    requires mapped { plan.now.mapped ≡ mapped_cells pool.now.filesystems }
    requires few { length plan.now.stretches ≤ 2 }
    requires needed { plan.now.needed ≤ 2 }
    requires small { sectors_in payload.now ≤ 128 }
    ensures { OnOk result (carried.new.pool ≡ written fs.now (puts pool.now fs.now pool.now.next_cell (bytes_in payload.now) plan.now.stretches) plan.now.needed pool.now) }
{
    let bytes = bytes_in(alloc, payload)?;
    put_all(
        carried,
        alloc,
        pool,
        fs,
        plan.mapped.items(),
        plan.stretches.items(),
        bytes.items(),
    )?;
    finish(
        carried,
        alloc,
        pool.filesystems.items(),
        fs.row.serial,
        plan.needed,
    )
}

/// What is carried before the first stretch, in a list of one.
fn begun(alloc: Global, pool: &PoolState, fs: &FsState) -> Result<ItemList<Carried>, NoMemory>
    ensures { IfOk result (λ list. list ≡ begins pool.now fs.now ∷ []) }
{
    let mut list = ItemList::make(alloc);
    list.push(begins(alloc, pool, fs)?)?;
    Ok(list)
}

/// What is there after the write of a payload, in a list of one.
fn changed(
    alloc: Global,
    pool: &PoolState,
    fs: &FsState,
    plan: &Plan,
    payload: &Payload,
) -> Result<ItemList<Carried>, NoMemory>
    requires cells { pool.now.next_cell ≤ 2 ^ 50 }
    requires commits { pool.now.commits ≤ 2 ^ 48 }
    requires mapped { plan.now.mapped ≡ mapped_cells pool.now.filesystems }
    requires few { length plan.now.stretches ≤ 2 }
    requires needed { plan.now.needed ≤ 2 }
    requires small { sectors_in payload.now ≤ 128 }
    ensures { IfOk result (λ list. map (λ (c : Carried). c.pool) list ≡ written fs.now (puts pool.now fs.now pool.now.next_cell (bytes_in payload.now) plan.now.stretches) plan.now.needed pool.now ∷ []) }
{
    let mut list = begun(alloc, pool, fs)?;
    change(list.at_mut(0), alloc, pool, fs, plan, payload)?;
    Ok(list)
}

/// The pool becomes the one that is in the list of one.
fn replace(pool: &mut PoolState, list: &mut ItemList<Carried>)
    requires { length list.old ≡ 1 }
    ensures { map (λ (c : Carried). c.pool) list.old ≡ pool.new ∷ [] }
{
    mem::swap(pool, &mut list.at_mut(0).pool);
}

/// Writes sectors of the filesystem of this name, or answers why not. The numbers are in range in each pool that is whole.
pub fn fs_write(
    pool: &mut PoolState,
    alloc: Global,
    name: &Name,
    sector: u64,
    payload: &Payload,
) -> Result<Reply, NoMemory>
    requires cells { pool.old.next_cell ≤ 2 ^ 50 }
    requires commits { pool.old.commits ≤ 2 ^ 48 }
    ensures ok { IfOk result (λ reply. (reply, pool.new) ≡ fs_write name.now sector payload.now pool.old) }
    ensures err { OnErr result (pool.new ≡ pool.old) }
{
    let Some(place) = place_of_fs(pool.filesystems.items(), name) else {
        return Ok(Reply::refused(Cause::NoSuchFilesystem));
    };
    let fs = pool.filesystems.at(place);
    let sectors = sectors_in(payload);
    let plan = planned(alloc, pool, fs, sector, sectors)?;
    if let Some(reply) = write_answer(pool, fs, sector, sectors, &plan)? {
        return Ok(reply);
    }
    let mut after = changed(alloc, pool, fs, &plan, payload)?;
    replace(pool, &mut after);
    Ok(Reply::accepted(Given::Written(sectors)))
}

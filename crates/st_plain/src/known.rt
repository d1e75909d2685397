ghost use Rattle.std.specs.Prelude.{◌≡◌, ◌≤◌, ◌^◌, [], None, IfOk, length, find, option_copied};
ghost use Rattle.st_model.specs.Answer.{refused_by};
ghost use Rattle.st_model.specs.Look.{distinct, is_name_of};
ghost use Rattle.st_model.specs.OnTable.{is_held, held_answer, user_of, first_taken, taken_by, table_answer};
ghost use Rattle.st_model.specs.Parts.{free_of, shown_table};
ghost use Rattle.st_model.specs.Shown.{stopped_with};
ghost use Rattle.st_model.specs.steps.CreatePool.{data_rows, new_pool};

use st_limits::{MAX_POOL_DEVICES, MAX_POOL_SERIAL, MAX_POOLS};
use st_model::making::{absent, data_rows, held, new_pool, too_small};
use st_model::{
    KnownPool, PoolState, Reply, StoppedList, TableInfo, TableState, insert_stopped, look,
};
use st_units::{Cause, DevList, DevPath, DevRow, Name, NoMemory, PoolSerial, Shared};
use std::alloc::Global;

fn is_name_of(new: Option<&Name>, name: &Name) -> bool
    ensures { result ≡ is_name_of name.now (option_copied new.entry) }
{
    match new {
        Some(new) => new.bytes() == name.bytes(),
        None => false,
    }
}

fn is_held(pool: &KnownPool, name: &Name) -> bool
    ensures { result ≡ is_held name.now pool.now }
{
    pool.name.bytes() == name.bytes() || is_name_of(pool.new.as_ref(), name)
}

fn holder<'a>(names: &'a [KnownPool], name: &Name) -> Option<&'a KnownPool>
    ensures { option_copied result ≡ find (is_held name.now) names.now }
{
    names.iter().find(|pool| is_held(pool, name))
}

fn user_of<'a>(names: &'a [KnownPool], path: &DevPath) -> Option<&'a KnownPool>
    ensures { option_copied result ≡ user_of path.now names.now }
{
    names
        .iter()
        .find(|pool| look::has_path(pool.devices.items(), path))
}

fn first_taken<'a>(paths: &'a [DevPath], names: &[KnownPool]) -> Option<&'a DevPath>
    ensures { option_copied result ≡ first_taken paths.now names.now }
{
    paths.iter().find(|path| user_of(names, path).is_some())
}

fn held_answer(
    alloc: Global,
    name: &Name,
    paths: &[DevPath],
    own: Option<&PoolState>,
    holder: Option<&KnownPool>,
) -> Result<Option<Reply>, NoMemory>
    ensures { IfOk result (λ reply. reply ≡ held_answer name.now paths.now (option_copied own.entry) (option_copied holder.entry)) }
{
    match (holder, own) {
        (None, _) => Ok(None),
        (Some(_), None) => Ok(Some(Reply::refused(Cause::NameInUse))),
        (Some(_), Some(pool)) => held(alloc, name, paths, Some(pool)),
    }
}

fn taken(paths: &[DevPath], names: &[KnownPool]) -> Result<Option<Reply>, NoMemory>
    ensures { IfOk result (λ reply. reply ≡ refused_by (taken_by names.now (first_taken paths.now names.now))) }
{
    let Some(path) = first_taken(paths, names) else {
        return Ok(None);
    };
    match user_of(names, path) {
        Some(pool) => Ok(Some(Reply::refused(Cause::DeviceInUse(path.copy()?, pool.name.copy()?)))),
        None => Ok(None),
    }
}

fn free_of(alloc: Global, names: &[KnownPool], rows: &[DevRow]) -> Result<DevList, NoMemory>
    ensures { IfOk result (λ list. list ≡ free_of names.now rows.now) }
{
    let mut list = DevList::make(alloc);
    for row in rows {
        if user_of(names, &row.path).is_none() {
            list.push(row.path.copy()?)?;
        }
    }
    Ok(list)
}

fn stopped_rows(alloc: Global, pools: &[PoolState]) -> Result<StoppedList, NoMemory>
    ensures { IfOk result (λ list. list ≡ stopped_with [] pools.now) }
{
    let mut list = StoppedList::make(alloc);
    for pool in pools {
        insert_stopped(&mut list, pool)?;
    }
    Ok(list)
}

/// What a report shows of the table.
pub fn shown(alloc: Global, table: &TableState) -> Result<Shared<TableInfo>, NoMemory>
    ensures { IfOk result (λ info. info ≡ shown_table table.now) }
{
    let info = TableInfo {
        next: table.next,
        free: free_of(alloc, table.names.items(), table.devices.items())?,
        stopped: stopped_rows(alloc, table.stopped.items())?,
    };
    match Shared::make(alloc, info) {
        Ok(info) => Ok(info),
        Err(_) => Err(NoMemory),
    }
}

/// The answer of CreatePool that changes nothing, where there is one. `own` is the started
/// pool that has the name.
#[tactic(auto, unfolding(st_model::specs::OnTable::table_answer))]
pub fn create_answer(
    alloc: Global,
    table: &TableState,
    own: Option<&PoolState>,
    name: &Name,
    devices: &DevList,
) -> Result<Option<Reply>, NoMemory>
    ensures answer { IfOk result (λ reply. reply ≡ table_answer table.now (option_copied own.entry) name.now devices.now) }
    ensures room { IfOk result (λ reply. reply ≡ None → table.now.next ≤ 2 ^ 48) }
    ensures few { IfOk result (λ reply. reply ≡ None → length (distinct devices.now) ≤ 16) }
{
    let paths = devices.items();
    if paths.len() == 0 {
        return Ok(Some(Reply::refused(Cause::EmptyDevices)));
    }
    if let Some(reply) = absent(paths, table.devices.items())? {
        return Ok(Some(reply));
    }
    let holder = holder(table.names.items(), name);
    if let Some(reply) = held_answer(alloc, name, paths, own, holder)? {
        return Ok(Some(reply));
    }
    if let Some(reply) = taken(paths, table.names.items())? {
        return Ok(Some(reply));
    }
    if let Some(reply) = too_small(paths, table.devices.items())? {
        return Ok(Some(reply));
    }
    if look::distinct(alloc, paths)?.len() > MAX_POOL_DEVICES as usize {
        return Ok(Some(Reply::refused(Cause::TooManyDevices)));
    }
    if table.names.len() >= MAX_POOLS as usize || table.next > MAX_POOL_SERIAL {
        return Ok(Some(Reply::refused(Cause::TooManyPools)));
    }
    Ok(None)
}

/// The pool that CreatePool makes on these paths, with the next serial.
pub fn made_pool(
    alloc: Global,
    table: &TableState,
    name: &Name,
    paths: &DevList,
) -> Result<PoolState, NoMemory>
    requires first { 1 ≤ table.now.next }
    requires last { table.now.next ≤ 2 ^ 48 }
    ensures { IfOk result (λ pool. pool ≡ new_pool table.now.next name.now (data_rows table.now.devices paths.now)) }
{
    let rows = data_rows(alloc, table.devices.items(), paths.items())?;
    Ok(new_pool(alloc, PoolSerial::of(table.next), name.copy()?, rows))
}

ghost use Rattle.std.specs.Prelude.{◌≡◌, ◌≤◌, ◌<◌, ◌^◌, ◌&&◌, IfOk, None, is_some, find, length, option_map, option_copied, unwrap_or};
ghost use Rattle.std.specs.List.{list_all};
ghost use Rattle.st_units.specs.declared.rows.DevRow.{DevRow};
ghost use Rattle.st_model.specs.Answer.{refused_by};
ghost use Rattle.st_model.specs.Checks.{absent_device, first_small, sectors_of, small_device};
ghost use Rattle.st_model.specs.Look.{distinct, first_absent, has_path, row_of};
ghost use Rattle.st_model.specs.steps.CreatePool.{data_paths, same_set};
ghost use Rattle.st_creating.specs.Told.{first_user, held_told, is_shown_made, is_shown_up, taken_told, told_answer, user_here};

use st_limits::{MAX_POOL_DEVICES, MAX_POOL_SERIAL, MAX_POOLS, MIN_DEVICE_SECTORS};
use st_model::{Given, PoolInfo, Reply, ShownMode, look};
use st_table::Table;
use st_units::{Cause, DevList, DevPath, DevRow, Name, NoMemory, Tier};
use std::alloc::Global;

fn is_shown_up(mode: &ShownMode) -> bool
    ensures { result ≡ is_shown_up mode.now }
{
    match mode {
        ShownMode::Up => true,
        _ => false,
    }
}

fn data_paths(alloc: Global, rows: &[DevRow]) -> Result<DevList, NoMemory>
    ensures { IfOk result (λ list. list ≡ data_paths rows.now) }
{
    let mut list = DevList::make(alloc);
    for row in rows {
        if row.tier == Tier::DataTier {
            list.push(row.path.copy()?)?;
        }
    }
    Ok(list)
}

fn all_in(paths: &[DevPath], others: &[DevPath]) -> bool
    ensures { result ≡ list_all (λ path. has_path path others.now) paths.now }
{
    paths.iter().all(|path| look::has_path(others, path))
}

fn same_set(paths: &[DevPath], others: &[DevPath]) -> bool
    ensures { result ≡ same_set paths.now others.now }
{
    all_in(paths, others) && all_in(others, paths)
}

/// Whether the pool that is shown is what the call asks for.
fn is_made(alloc: Global, name: &Name, paths: &[DevPath], info: &PoolInfo) -> Result<bool, NoMemory>
    ensures { IfOk result (λ made. made ≡ is_shown_made name.now paths.now info.now) }
{
    let own = data_paths(alloc, info.devs.items())?;
    Ok(is_shown_up(&info.mode) && info.name.bytes() == name.bytes() && same_set(own.items(), paths))
}

/// The answer where a pool holds the name.
fn held(
    alloc: Global,
    name: &Name,
    paths: &[DevPath],
    own: Option<&PoolInfo>,
    held: bool,
) -> Result<Option<Reply>, NoMemory>
    ensures { IfOk result (λ reply. reply ≡ held_told name.now paths.now (option_copied own.entry) held) }
{
    if !held {
        return Ok(None);
    }
    let Some(info) = own else {
        return Ok(Some(Reply::refused(Cause::NameInUse)));
    };
    if is_made(alloc, name, paths, info)? {
        Ok(Some(Reply::accepted(Given::Created(false, None))))
    } else {
        Ok(Some(Reply::refused(Cause::NameInUse)))
    }
}

fn absent(table: &Table, paths: &[DevPath]) -> Result<Option<Reply>, NoMemory>
    ensures { IfOk result (λ reply. reply ≡ absent_device paths.now table.now.devices) }
{
    match first_absent(table, paths) {
        Some(path) => Ok(Some(Reply::refused(Cause::NoSuchDevice(path.copy()?)))),
        None => Ok(None),
    }
}

fn first_absent<'a>(table: &Table, paths: &'a [DevPath]) -> Option<&'a DevPath>
    ensures { option_copied result ≡ first_absent paths.now table.now.devices }
{
    paths.iter().find(|path| table.sectors(path).is_none())
}

/// The pool that uses a device of the rack.
fn user<'a>(table: &'a Table, path: &DevPath) -> Option<&'a Name>
    ensures { option_copied result ≡ user_here table.now path.now }
{
    if table.sectors(path).is_none() {
        return None;
    }
    table.user_of(path)
}

fn first_user<'a>(table: &Table, paths: &'a [DevPath]) -> Option<&'a DevPath>
    ensures { option_copied result ≡ first_user table.now paths.now }
{
    paths.iter().find(|path| user(table, path).is_some())
}

fn taken(table: &Table, paths: &[DevPath]) -> Result<Option<Reply>, NoMemory>
    ensures { IfOk result (λ reply. reply ≡ refused_by (taken_told table.now (first_user table.now paths.now))) }
{
    let Some(path) = first_user(table, paths) else {
        return Ok(None);
    };
    match user(table, path) {
        Some(name) => Ok(Some(Reply::refused(Cause::DeviceInUse(path.copy()?, name.copy()?)))),
        None => Ok(None),
    }
}

fn sectors_of(table: &Table, path: &DevPath) -> u64
    ensures { result ≡ sectors_of path.now table.now.devices }
{
    match table.sectors(path) {
        Some(sectors) => sectors,
        None => 0,
    }
}

fn first_small<'a>(table: &Table, paths: &'a [DevPath]) -> Option<&'a DevPath>
    ensures { option_copied result ≡ first_small paths.now table.now.devices }
{
    paths
        .iter()
        .find(|path| sectors_of(table, path) < MIN_DEVICE_SECTORS)
}

fn too_small(table: &Table, paths: &[DevPath]) -> Result<Option<Reply>, NoMemory>
    ensures { IfOk result (λ reply. reply ≡ small_device paths.now table.now.devices) }
{
    match first_small(table, paths) {
        Some(path) => Ok(Some(Reply::refused(Cause::DeviceTooSmall(path.copy()?)))),
        None => Ok(None),
    }
}

/// The answer of CreatePool that changes nothing, where there is one. `own` is shown of the started pool that has the name, and `pools`
/// are known.
#[tactic(auto, unfolding(crate::specs::Told::told_answer))]
pub fn create_answer(
    alloc: Global,
    table: &Table,
    pools: usize,
    own: Option<&PoolInfo>,
    name: &Name,
    devices: &DevList,
) -> Result<Option<Reply>, NoMemory>
    requires { pools ≡ length table.now.pools }
    ensures answer { IfOk result (λ reply. reply ≡ told_answer table.now (option_copied own.entry) name.now devices.now) }
    ensures room { IfOk result (λ reply. reply ≡ None → table.now.next ≤ 2 ^ 48) }
    ensures few { IfOk result (λ reply. reply ≡ None → length (distinct devices.now) ≤ 16) }
{
    let paths = devices.items();
    if paths.len() == 0 {
        return Ok(Some(Reply::refused(Cause::EmptyDevices)));
    }
    if let Some(reply) = absent(table, paths)? {
        return Ok(Some(reply));
    }
    if let Some(reply) = held(alloc, name, paths, own, table.held(name))? {
        return Ok(Some(reply));
    }
    if let Some(reply) = taken(table, paths)? {
        return Ok(Some(reply));
    }
    if let Some(reply) = too_small(table, paths)? {
        return Ok(Some(reply));
    }
    if look::distinct(alloc, paths)?.len() > MAX_POOL_DEVICES as usize {
        return Ok(Some(Reply::refused(Cause::TooManyDevices)));
    }
    if pools >= MAX_POOLS as usize || table.next_serial() > MAX_POOL_SERIAL {
        return Ok(Some(Reply::refused(Cause::TooManyPools)));
    }
    Ok(None)
}

ghost use Rattle.std.specs.Prelude.{◌≡◌, IfOk, option_copied};
ghost use Rattle.std.specs.List.{list_all};
ghost use Rattle.st_model.specs.Checks.{absent_device, small_device, sectors_of, first_small};
ghost use Rattle.st_model.specs.Look.{has_path};
ghost use Rattle.st_model.specs.steps.CreatePool.{data_rows, same_set, is_made, data_paths, answer_held, new_pool};

use crate::look;
use crate::number_map::NumberMap;
use crate::reply::{Given, Reply};
use crate::state::{PoolMode, PoolState};
use st_limits::{DEFAULT_FS_LIMIT, FIRST_ALLOCATION, MIN_DEVICE_SECTORS};
use st_units::{
    Cause, DevList, DevPath, DevRow, DevRows, ItemList, Name, NoMemory, PoolSerial, Tier,
};
use std::alloc::Global;

fn sectors_of(rows: &[DevRow], path: &DevPath) -> u64
    ensures { result ≡ sectors_of path.now rows.now }
{
    match look::row_of(rows, path) {
        Some(row) => row.sectors,
        None => 0,
    }
}

fn first_small<'a>(paths: &'a [DevPath], rows: &[DevRow]) -> Option<&'a DevPath>
    ensures { option_copied result ≡ first_small paths.now rows.now }
{
    paths
        .iter()
        .find(|path| sectors_of(rows, path) < MIN_DEVICE_SECTORS)
}

fn data_paths(alloc: Global, rows: &[DevRow]) -> Result<DevList, NoMemory>
    ensures { IfOk result (λ list. list ≡ data_paths rows.now) }
{
    let mut list = DevList::make(alloc);
    for row in rows {
        if row.tier == Tier::DataTier {
            list.push(row.path.copy()?)?;
        }
    }
    Ok(list)
}

/// The rows of a new pool's devices.
pub fn data_rows(alloc: Global, rows: &[DevRow], paths: &[DevPath]) -> Result<DevRows, NoMemory>
    ensures { IfOk result (λ list. list ≡ data_rows rows.now paths.now) }
{
    let mut list = DevRows::make(alloc);
    for path in paths {
        list.push(DevRow {
            path: path.copy()?,
            tier: Tier::DataTier,
            sectors: sectors_of(rows, path),
        })?;
    }
    Ok(list)
}

fn all_in(paths: &[DevPath], others: &[DevPath]) -> bool
    ensures { result ≡ list_all (λ path. has_path path others.now) paths.now }
{
    paths.iter().all(|path| look::has_path(others, path))
}

fn same_set(paths: &[DevPath], others: &[DevPath]) -> bool
    ensures { result ≡ same_set paths.now others.now }
{
    all_in(paths, others) && all_in(others, paths)
}

fn is_made(
    alloc: Global,
    name: &Name,
    paths: &[DevPath],
    pool: &PoolState,
) -> Result<bool, NoMemory>
    ensures { IfOk result (λ made. made ≡ is_made name.now paths.now pool.now) }
{
    let own = data_paths(alloc, pool.devices.items())?;
    Ok(look::is_up(&pool.mode) && look::is_called(pool, name) && same_set(own.items(), paths))
}

/// The answer where a pool holds the name.
pub fn held(
    alloc: Global,
    name: &Name,
    paths: &[DevPath],
    holder: Option<&PoolState>,
) -> Result<Option<Reply>, NoMemory>
    ensures { IfOk result (λ reply. reply ≡ answer_held name.now paths.now (option_copied holder.entry)) }
{
    let Some(pool) = holder else {
        return Ok(None);
    };
    if is_made(alloc, name, paths, pool)? {
        Ok(Some(Reply::accepted(Given::Created(false, None))))
    } else {
        Ok(Some(Reply::refused(Cause::NameInUse)))
    }
}

/// The refusal that names the first device that the rack lacks.
pub fn absent(paths: &[DevPath], rows: &[DevRow]) -> Result<Option<Reply>, NoMemory>
    ensures { IfOk result (λ reply. reply ≡ absent_device paths.now rows.now) }
{
    match look::first_absent(paths, rows) {
        Some(path) => Ok(Some(Reply::refused(Cause::NoSuchDevice(path.copy()?)))),
        None => Ok(None),
    }
}

/// The refusal that names the first device that is too small.
pub fn too_small(paths: &[DevPath], rows: &[DevRow]) -> Result<Option<Reply>, NoMemory>
    ensures { IfOk result (λ reply. reply ≡ small_device paths.now rows.now) }
{
    match first_small(paths, rows) {
        Some(path) => Ok(Some(Reply::refused(Cause::DeviceTooSmall(path.copy()?)))),
        None => Ok(None),
    }
}

/// The pool that CreatePool makes.
pub fn new_pool(alloc: Global, serial: PoolSerial, name: Name, devices: DevRows) -> PoolState
    ensures { result ≡ new_pool serial name devices }
{
    PoolState {
        serial,
        name,
        mode: PoolMode::Up,
        devices,
        filesystems: ItemList::make(alloc),
        cells: NumberMap::make(alloc),
        next_cell: 1,
        next_filesystem: 1,
        allocated: FIRST_ALLOCATION,
        filesystem_limit: DEFAULT_FS_LIMIT,
        overprovisioning: true,
        commits: 1,
        cache: None,
    }
}

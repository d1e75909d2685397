ghost use Rattle.std.specs.Prelude.{[], ◌≡◌, find, option_copied, bytes_eq, IfOk, OnOk, OnErr};
ghost use Rattle.std.specs.List.{list_any, list_all};
ghost use Rattle.st_model.specs.Look.{kept, has_path, row_of, first_absent, pool_using, first_used, holder, distinct, uses, takes_path, devices_taken, flight_of, gives_name, name_given, is_up, is_started, is_called, holds};

use crate::call::Call;
use crate::state::{PoolMode, PoolState};
use st_units::{DevList, DevPath, DevRow, Name, NoMemory};
use std::alloc::Global;

/// Whether the path is among these.
pub fn has_path(paths: &[DevPath], path: &DevPath) -> bool
    ensures { result ≡ has_path path.now paths.now }
{
    paths.iter().any(|p| p.bytes() == path.bytes())
}

/// The row of the device.
pub fn row_of<'a>(rows: &'a [DevRow], path: &DevPath) -> Option<&'a DevRow>
    ensures { option_copied result ≡ row_of path.now rows.now }
{
    rows.iter().find(|row| row.path.bytes() == path.bytes())
}

/// The first path that no row has.
pub fn first_absent<'a>(paths: &'a [DevPath], rows: &[DevRow]) -> Option<&'a DevPath>
    ensures { option_copied result ≡ first_absent paths.now rows.now }
{
    paths.iter().find(|path| row_of(rows, path).is_none())
}

/// Puts the path last where it isn't there yet.
fn keep(list: &mut DevList, path: &DevPath) -> Result<(), NoMemory>
    ensures ok { OnOk result (list.new ≡ kept list.old path.now) }
    ensures err { OnErr result (list.new ≡ list.old) }
{
    if !has_path(list.items(), path) {
        list.push(path.copy()?)?;
    }
    Ok(())
}

/// Each path once, at its first place.
#[tactic(auto, using(crate::proofs::Distinct::kept_step, crate::proofs::Distinct::unseen_by_none))]
pub fn distinct(alloc: Global, paths: &[DevPath]) -> Result<DevList, NoMemory>
    ensures { IfOk result (λ list. list ≡ distinct paths.now) }
{
    let mut list = DevList::make(alloc);
    for path in paths {
        keep(&mut list, path)?;
    }
    Ok(list)
}

fn flight_of(mode: &PoolMode) -> Option<&Call>
    ensures { option_copied result ≡ flight_of mode.now }
{
    match mode {
        PoolMode::Down(call) | PoolMode::Unsettled(call) => Some(call),
        PoolMode::Up | PoolMode::Stopped | PoolMode::Incomplete(_) => None,
    }
}

fn takes_device(call: &Call, path: &DevPath) -> bool
    ensures { result ≡ has_path path.now (devices_taken call.now) }
{
    match call {
        Call::CreatePool { name: _, devices }
        | Call::AddDataDevs { pool: _, devices }
        | Call::InitCache { pool: _, devices }
        | Call::AddCacheDevs { pool: _, devices } => has_path(devices.items(), path),
        _ => false,
    }
}

fn flight_takes(mode: &PoolMode, path: &DevPath) -> bool
    ensures { result ≡ takes_path path.now (flight_of mode.now) }
{
    match flight_of(mode) {
        Some(call) => takes_device(call, path),
        None => false,
    }
}

/// Whether the pool uses the device: in its state, or in its call in flight.
pub fn uses(pool: &PoolState, path: &DevPath) -> bool
    ensures { result ≡ uses path.now pool.now }
{
    row_of(pool.devices.items(), path).is_some() || flight_takes(&pool.mode, path)
}

/// The pool that uses the device.
pub fn pool_using<'a>(pools: &'a [PoolState], path: &DevPath) -> Option<&'a PoolState>
    ensures { option_copied result ≡ pool_using path.now pools.now }
{
    pools.iter().find(|pool| uses(pool, path))
}

/// The first path that some pool uses.
pub fn first_used<'a>(paths: &'a [DevPath], pools: &[PoolState]) -> Option<&'a DevPath>
    ensures { option_copied result ≡ first_used paths.now pools.now }
{
    paths.iter().find(|path| pool_using(pools, path).is_some())
}

/// Whether this is the pool of the name.
pub fn is_called(pool: &PoolState, name: &Name) -> bool
    ensures { result ≡ is_called name.now pool.now }
{
    pool.name.bytes() == name.bytes()
}

fn gives(call: &Call, name: &Name) -> bool
    ensures { result ≡ gives_name name.now (Some call.now) }
{
    match call {
        Call::RenamePool { name: _, new } => new.bytes() == name.bytes(),
        _ => false,
    }
}

fn flight_gives(mode: &PoolMode, name: &Name) -> bool
    ensures { result ≡ gives_name name.now (flight_of mode.now) }
{
    match flight_of(mode) {
        Some(call) => gives(call, name),
        None => false,
    }
}

fn holds(pool: &PoolState, name: &Name) -> bool
    ensures { result ≡ holds name.now pool.now }
{
    is_called(pool, name) || flight_gives(&pool.mode, name)
}

/// The pool that holds the name.
pub fn holder<'a>(pools: &'a [PoolState], name: &Name) -> Option<&'a PoolState>
    ensures { option_copied result ≡ holder name.now pools.now }
{
    pools.iter().find(|pool| holds(pool, name))
}

/// Started, and no write failed.
pub fn is_up(mode: &PoolMode) -> bool
    ensures { result ≡ is_up mode.now }
{
    matches!(mode, PoolMode::Up)
}

/// Started.
pub fn is_started(mode: &PoolMode) -> bool
    ensures { result ≡ is_started mode.now }
{
    matches!(mode, PoolMode::Up | PoolMode::Down(_))
}

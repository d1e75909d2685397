ghost use Rattle.std.specs.Prelude.{◌≡◌, ◌≤◌, ◌^◌, None, IfOk, OnErr};
ghost use Rattle.st_model.specs.declared.call.Call.TheVariants.{CreatePool};
ghost use Rattle.st_model.specs.declared.entry.Env.TheVariants.{FaultWrite};
ghost use Rattle.st_model.specs.Checks.{used_device};
ghost use Rattle.st_model.specs.Step.{step};
ghost use Rattle.st_model.specs.steps.CreatePool.{create_plain, create_answer, broken_pool};

use st_limits::{MAX_POOL_DEVICES, MAX_POOL_SERIAL, MAX_POOLS};
use st_model::making::{absent, data_rows, held, new_pool, too_small};
use st_model::{Call, EngineState, Given, NumberMap, PoolMode, PoolState, Reply, look};
use st_units::{Cause, DevList, DevPath, DevRows, ItemList, Name, NoMemory, PoolSerial};
use std::alloc::Global;

/// The refusal that names the first device in use, and its pool.
pub(crate) fn in_use(paths: &[DevPath], pools: &[PoolState]) -> Result<Option<Reply>, NoMemory>
    ensures { IfOk result (λ reply. reply ≡ used_device paths.now pools.now) }
{
    let Some(path) = look::first_used(paths, pools) else {
        return Ok(None);
    };
    match look::pool_using(pools, path) {
        Some(pool) => Ok(Some(Reply::refused(Cause::DeviceInUse(path.copy()?, pool.name.copy()?)))),
        None => Ok(None),
    }
}

/// The answer that changes nothing, where there is one.
#[tactic(auto, unfolding(st_model::specs::steps::CreatePool::create_answer))]
fn create_answer(
    state: &EngineState,
    alloc: Global,
    name: &Name,
    devices: &DevList,
) -> Result<Option<Reply>, NoMemory>
    ensures answer { IfOk result (λ reply. reply ≡ create_answer state.now name.now devices.now) }
    ensures room { IfOk result (λ reply. reply ≡ None → state.now.next ≤ 2 ^ 48) }
{
    let paths = devices.items();
    if paths.len() == 0 {
        return Ok(Some(Reply::refused(Cause::EmptyDevices)));
    }
    if let Some(reply) = absent(paths, state.devices.items())? {
        return Ok(Some(reply));
    }
    if let Some(reply) = held(alloc, name, paths, look::holder(state.pools.items(), name))? {
        return Ok(Some(reply));
    }
    if let Some(reply) = in_use(paths, state.pools.items())? {
        return Ok(Some(reply));
    }
    if let Some(reply) = too_small(paths, state.devices.items())? {
        return Ok(Some(reply));
    }
    if look::distinct(alloc, paths)?.len() > MAX_POOL_DEVICES as usize {
        return Ok(Some(Reply::refused(Cause::TooManyDevices)));
    }
    if state.pools.len() >= MAX_POOLS as usize || state.next > MAX_POOL_SERIAL {
        return Ok(Some(Reply::refused(Cause::TooManyPools)));
    }
    Ok(None)
}

/// Makes the pool, or answers why not.
#[tactic(auto, unfolding(st_model::specs::steps::CreatePool::create_plain))]
pub(crate) fn create_pool(
    state: &mut EngineState,
    alloc: Global,
    name: &Name,
    devices: &DevList,
) -> Result<Reply, NoMemory>
    requires { 1 ≤ state.old.next }
    ensures ok { IfOk result (λ reply. (reply, state.new) ≡ create_plain state.old name.now devices.now) }
    ensures err { OnErr result (state.new ≡ state.old) }
{
    if let Some(reply) = create_answer(state, alloc, name, devices)? {
        return Ok(reply);
    }
    let paths = look::distinct(alloc, devices.items())?;
    let rows = data_rows(alloc, state.devices.items(), paths.items())?;
    let serial = PoolSerial::of(state.next);
    state
        .pools
        .push(new_pool(alloc, serial, name.copy()?, rows))?;
    state.next += 1;
    Ok(Reply::accepted(Given::Created(true, Some((serial, paths)))))
}

/// Makes the pool as one whose first commit failed, where the call would have made it.
#[tactic(auto, using(crate::proofs::Broken::answered_so, crate::proofs::Broken::unanswered_so))]
pub(crate) fn create_broken(
    state: &mut EngineState,
    alloc: Global,
    name: &Name,
    devices: &DevList,
) -> Result<Reply, NoMemory>
    requires { 1 ≤ state.old.next }
    ensures ok { IfOk result (λ reply. (reply, state.new) ≡ step state.old (CreatePool name.now devices.now) FaultWrite) }
    ensures err { OnErr result (state.new ≡ state.old) }
{
    if let Some(_answer) = create_answer(state, alloc, name, devices)? {
        return Ok(Reply::refused(Cause::OutOfMemory));
    }
    let paths = look::distinct(alloc, devices.items())?;
    let serial = PoolSerial::of(state.next);
    let pool = broken_pool(alloc, serial, name.copy()?, name.copy()?, paths);
    state.pools.push(pool)?;
    state.next += 1;
    Ok(Reply::refused(Cause::DeviceFault))
}

fn broken_pool(
    alloc: Global,
    serial: PoolSerial,
    name: Name,
    twin: Name,
    devices: DevList,
) -> PoolState
    requires { twin ≡ name }
    ensures { result ≡ broken_pool serial name devices }
{
    PoolState {
        serial,
        name,
        mode: PoolMode::Down(Call::CreatePool {
            name: twin,
            devices,
        }),
        devices: DevRows::make(alloc),
        filesystems: ItemList::make(alloc),
        cells: NumberMap::make(alloc),
        next_cell: 1,
        next_filesystem: 1,
        allocated: 0,
        filesystem_limit: 0,
        overprovisioning: false,
        commits: 0,
        cache: None,
    }
}

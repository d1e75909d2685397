ghost use Rattle.std.specs.Prelude.{◌≡◌, ◌<◌, ◌^◌, ◌++◌, option_copied, IfOk, OnOk, OnErr};
ghost use Rattle.st_model.specs.Answer.{first_answer};
ghost use Rattle.st_model.specs.Checks.{not_up};
ghost use Rattle.st_model.specs.Sums.{AreSmall};
ghost use Rattle.st_model.specs.Valid.{IsValid};
ghost use Rattle.st_model.specs.steps.AddDevices.{add_answers, add_devices, on_devices};
ghost use Rattle.st_step.specs.Adding.{adding_of};

use crate::create_pool::in_use;
use crate::place::place_of;
use crate::tiers::{cache_capacity, cache_paths, data_paths, new_to, rows_on};
use st_limits::{MAX_COMMITS, MAX_POOL_DEVICES};
use st_model::making::{absent, too_small};
use st_model::{CacheState, EngineState, Given, PoolMode, PoolState, Reply};
use st_units::{Cause, DevList, DevRow, DevRows, ItemList, Name, NoMemory, Tier};
use std::alloc::Global;

/// Where devices are added.
#[derive(Clone, Copy)]
pub(crate) enum Adding {
    ToData,
    /// To a cache tier that isn't there yet.
    ToNewCache,
    ToCache,
}

impl Adding {
    fn tier(self) -> Tier
        ensures { result ≡ (adding_of self).tier }
    {
        match self {
            Adding::ToData => Tier::DataTier,
            Adding::ToNewCache | Adding::ToCache => Tier::CacheTier,
        }
    }

    /// The devices that are in the tier.
    fn there(self, alloc: Global, rows: &[DevRow]) -> Result<DevList, NoMemory>
        ensures { IfOk result (λ list. list ≡ (adding_of self).there rows.now) }
    {
        match self {
            Adding::ToData => data_paths(alloc, rows),
            Adding::ToNewCache | Adding::ToCache => cache_paths(alloc, rows),
        }
    }

    /// The refusal that a cache, or its absence, makes.
    fn refusal(self, cache: Option<&CacheState>) -> Option<Reply>
        ensures { result ≡ (adding_of self).refusal (option_copied cache.entry) }
    {
        match (self, cache) {
            (Adding::ToNewCache, Some(_)) => Some(Reply::refused(Cause::CacheExists)),
            (Adding::ToCache, None) => Some(Reply::refused(Cause::NoCache)),
            _ => None,
        }
    }

    /// The cache, once these are the pool's devices.
    fn cache(self, alloc: Global, rows: &[DevRow], cache: Option<CacheState>) -> Option<CacheState>
        requires { AreSmall rows.now }
        ensures { result ≡ (adding_of self).cache rows.now cache }
    {
        match (self, cache) {
            (Adding::ToData, cache) => cache,
            (Adding::ToNewCache, _) => Some(CacheState {
                capacity: cache_capacity(rows),
                cells: ItemList::make(alloc),
                hits: 0,
                misses: 0,
            }),
            (Adding::ToCache, Some(cache)) => Some(CacheState {
                capacity: cache_capacity(rows),
                cells: cache.cells,
                hits: cache.hits,
                misses: cache.misses,
            }),
            (Adding::ToCache, None) => None,
        }
    }
}

/// The refusal of a pool that isn't up.
fn not_up(pool: &PoolState) -> Result<Option<Reply>, NoMemory>
    ensures { IfOk result (λ reply. reply ≡ not_up pool.now pool.now.mode) }
{
    match &pool.mode {
        PoolMode::Up => Ok(None),
        PoolMode::Down(_) => Ok(Some(Reply::refused(Cause::Maintenance(pool.name.copy()?)))),
        PoolMode::Stopped | PoolMode::Unsettled(_) | PoolMode::Incomplete(_) => {
            Ok(Some(Reply::refused(Cause::PoolStopped)))
        }
    }
}

/// The answer that changes nothing, where there is one.
fn add_answer(
    state: &EngineState,
    adding: Adding,
    devices: &DevList,
    new: &DevList,
    pool: &PoolState,
) -> Result<Option<Reply>, NoMemory>
    ensures { IfOk result (λ reply. reply ≡ first_answer (add_answers (adding_of adding) state.now devices.now new.now pool.now)) }
{
    if let Some(reply) = not_up(pool)? {
        return Ok(Some(reply));
    }
    if devices.len() == 0 {
        return Ok(Some(Reply::refused(Cause::EmptyDevices)));
    }
    if let Some(reply) = absent(devices.items(), state.devices.items())? {
        return Ok(Some(reply));
    }
    if new.len() == 0 {
        return Ok(Some(Reply::accepted(Given::Added(false, DevList::make(new.memory())))));
    }
    if let Some(reply) = adding.refusal(pool.cache.as_ref()) {
        return Ok(Some(reply));
    }
    if let Some(reply) = in_use(new.items(), state.pools.items())? {
        return Ok(Some(reply));
    }
    if let Some(reply) = too_small(new.items(), state.devices.items())? {
        return Ok(Some(reply));
    }
    if pool.devices.len() as u128 + new.len() as u128 > MAX_POOL_DEVICES as u128 {
        return Ok(Some(Reply::refused(Cause::TooManyDevices)));
    }
    if pool.commits == MAX_COMMITS {
        return Ok(Some(Reply::refused(Cause::Worn)));
    }
    Ok(None)
}

/// The pool takes the devices behind those that it has.
fn take_devices(
    pool: &mut PoolState,
    alloc: Global,
    adding: Adding,
    rows: DevRows,
) -> Result<(), NoMemory>
    requires small { AreSmall (pool.old.devices ++ rows) }
    requires room { pool.old.commits < 2 ^ 48 }
    ensures ok { OnOk result (pool.new ≡ on_devices (adding_of adding) (pool.old.devices ++ rows) pool.old) }
    ensures err { OnErr result (pool.new ≡ pool.old) }
{
    pool.devices.append(rows)?;
    let cache = pool.cache.take();
    pool.cache = adding.cache(alloc, pool.devices.items(), cache);
    pool.commits += 1;
    Ok(())
}

/// Adds the devices to the pool of this name, or answers why not.
pub(crate) fn add_devices(
    state: &mut EngineState,
    alloc: Global,
    adding: Adding,
    name: &Name,
    devices: &DevList,
) -> Result<Reply, NoMemory>
    requires { IsValid state.old }
    ensures ok { IfOk result (λ reply. (reply, state.new) ≡ add_devices (adding_of adding) name.now devices.now state.old) }
    ensures err { OnErr result (state.new ≡ state.old) }
{
    let Some(place) = place_of(state.pools.items(), name) else {
        return Ok(Reply::refused(Cause::NoSuchPool));
    };
    let pool = state.pools.at(place);
    let tier = adding.there(alloc, pool.devices.items())?;
    let new = new_to(alloc, tier.items(), devices.items())?;
    if let Some(reply) = add_answer(state, adding, devices, &new, pool)? {
        return Ok(reply);
    }
    let rows = rows_on(alloc, adding.tier(), state.devices.items(), new.items())?;
    take_devices(state.pools.at_mut(place), alloc, adding, rows)?;
    Ok(Reply::accepted(Given::Added(true, new)))
}

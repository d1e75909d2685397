ghost use Rattle.std.specs.Prelude.{◌≡◌, IfOk, OnOk, OnErr};
ghost use Rattle.st_model.specs.declared.state.PoolMode.TheVariants.{Stopped};
ghost use Rattle.st_model.specs.Checks.{cold, cooled, halted, settled};
ghost use Rattle.st_model.specs.Merged.{merged};
ghost use Rattle.st_merges.specs.inner.Halting.{halted_mode, in_mode};

use crate::merging::merge;
use st_model::{CacheState, PoolMode, PoolState, look};
use st_units::{ItemList, NoMemory};
use std::alloc::Global;

fn cold(cache: Option<CacheState>) -> Option<CacheState>
    ensures { result ≡ cold cache }
{
    let cache = cache?;
    Some(CacheState {
        capacity: cache.capacity,
        cells: ItemList::make(cache.cells.memory()),
        hits: 0,
        misses: 0,
    })
}

/// Puts the pool into this mode, with its cache empty.
pub fn cool(pool: &mut PoolState, mode: PoolMode)
    ensures { pool.new ≡ cooled mode pool.old }
{
    let cache = pool.cache.take();
    pool.mode = mode;
    pool.cache = cold(cache);
}

/// The mode of a pool that is halted while it isn't up.
fn halted_mode(alloc: Global, mode: &PoolMode) -> Result<PoolMode, NoMemory>
    ensures { IfOk result (λ after. after ≡ halted_mode mode.now) }
{
    match mode {
        PoolMode::Up => Ok(PoolMode::Up),
        PoolMode::Down(call) | PoolMode::Unsettled(call) => {
            Ok(PoolMode::Unsettled(call.copy(alloc)?))
        }
        PoolMode::Stopped => Ok(PoolMode::Stopped),
        PoolMode::Incomplete(path) => Ok(PoolMode::Incomplete(path.copy()?)),
    }
}

fn set_mode(pool: &mut PoolState, mode: PoolMode)
    ensures { pool.new ≡ in_mode mode pool.old }
{
    pool.mode = mode;
}

/// The pool is up, and is started no more.
fn stop(pool: &mut PoolState, alloc: Global) -> Result<(), NoMemory>
    ensures ok { OnOk result (pool.new ≡ cooled Stopped (merged pool.old)) }
    ensures err { OnErr result (pool.new ≡ pool.old) }
{
    merge(pool, alloc)?;
    cool(pool, PoolMode::Stopped);
    Ok(())
}

/// What a stop or a power cut makes of the pool.
#[tactic(auto, using(crate::proofs::Halted::up_halts, crate::proofs::Halted::idle_halts))]
pub fn halt(pool: &mut PoolState, alloc: Global) -> Result<(), NoMemory>
    ensures ok { OnOk result (pool.new ≡ halted pool.old) }
    ensures err { OnErr result (pool.new ≡ pool.old) }
{
    if look::is_up(&pool.mode) {
        return stop(pool, alloc);
    }
    let mode = halted_mode(alloc, &pool.mode)?;
    set_mode(pool, mode);
    Ok(())
}

/// What a start makes of the pool that it found so.
pub fn settle(pool: &mut PoolState, alloc: Global) -> Result<(), NoMemory>
    ensures ok { OnOk result (pool.new ≡ settled pool.old) }
    ensures err { OnErr result (pool.new ≡ pool.old) }
{
    merge(pool, alloc)?;
    cool(pool, PoolMode::Up);
    Ok(())
}

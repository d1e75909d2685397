ghost use Rattle.std.specs.Prelude.{◌≡◌, ◌+◌, ◌<◌, ◌^◌, IfOk, OnErr};
ghost use Rattle.st_model.specs.Answer.{first_answer};
ghost use Rattle.st_model.specs.ValidPool.{IsWhole};
ghost use Rattle.st_model.specs.steps.Check.{blocks_added, check_answers, check_pool, fs_grown, new_sizes};

use crate::sizes::{count_grown, resize, sizes_after};
use st_grow::extension;
use st_model::{Given, PoolState, Reply, room};
use st_settings::worn;
use st_units::{ItemList, NoMemory};
use std::alloc::Global;

/// The blocks that are added to the allocated ones.
fn blocks_added(pool: &PoolState) -> u64
    requires { IsWhole pool.now }
    ensures added { result ≡ blocks_added pool.now }
    ensures within { pool.now.allocated + result < 2 ^ 64 }
{
    extension(pool.allocated, pool.cells.len() as u64, room(pool))
}

/// The sizes after the check, in order of creation.
fn new_sizes(alloc: Global, pool: &PoolState) -> Result<ItemList<u64>, NoMemory>
    requires { IsWhole pool.now }
    ensures { IfOk result (λ sizes. sizes ≡ new_sizes pool.now) }
{
    sizes_after(
        alloc,
        pool.filesystems.items(),
        room(pool),
        pool.overprovisioning,
    )
}

/// The answer that changes nothing, where there is one.
fn check_answer(pool: &PoolState, added: u64, grown: u64) -> Option<Reply>
    requires added { added ≡ blocks_added pool.now }
    requires grown { grown ≡ fs_grown pool.now }
    ensures { result ≡ first_answer (check_answers pool.now) }
{
    if added == 0 && grown == 0 {
        return Some(Reply::accepted(Given::Checked(false, 0, 0)));
    }
    worn(pool)
}

/// The pool grows where it is short of blocks, and its filesystems where they fill up; or this answers why not.
#[tactic(auto, unfolding(st_model::specs::steps::Check::check_pool))]
pub fn check_pool(pool: &mut PoolState, alloc: Global) -> Result<Reply, NoMemory>
    requires { IsWhole pool.old }
    ensures ok { IfOk result (λ reply. (reply, pool.new) ≡ check_pool pool.old) }
    ensures err { OnErr result (pool.new ≡ pool.old) }
{
    let added = blocks_added(pool);
    let sizes = new_sizes(alloc, pool)?;
    let grown = count_grown(pool.filesystems.items(), sizes.items());
    if let Some(reply) = check_answer(pool, added, grown) {
        return Ok(reply);
    }
    resize(&mut pool.filesystems, sizes.items());
    pool.allocated += added;
    pool.commits += 1;
    Ok(Reply::accepted(Given::Checked(true, added, grown)))
}

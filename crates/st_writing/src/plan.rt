ghost use Rattle.std.specs.Prelude.{◌≡◌, ◌≤◌, None, IfOk};
ghost use Rattle.st_model.specs.Answer.{first_answer};
ghost use Rattle.st_writing.specs.inner.Plans.{plan_of, planned_answers, wants};

use crate::cells::{mapped_cells, more, needed};
use st_limits::{MAX_MAPPINGS, MAX_WRITE_SECTORS};
use st_model::{FsState, PoolState, Reply};
use st_sectors::{Stretch, is_out_of_range, stretches};
use st_settings::worn;
use st_units::{Cause, ItemList, NoMemory};
use std::alloc::Global;

/// What a write is about to do.
#[derive(Drop)]
pub(crate) struct Plan {
    pub stretches: ItemList<Stretch>,
    /// The cell of each mapping of the pool.
    pub mapped: ItemList<u64>,
    /// The fresh cells that it takes.
    pub needed: u64,
    /// The mappings that it adds.
    pub more: u64,
}

/// The plan of a write of so many sectors from this one on.
pub(crate) fn planned(
    alloc: Global,
    pool: &PoolState,
    fs: &FsState,
    sector: u64,
    sectors: u64,
) -> Result<Plan, NoMemory>
    ensures { IfOk result (λ plan. plan ≡ plan_of pool.now fs.now sector sectors) }
{
    let stretches = stretches(alloc, sector, sectors)?;
    let mapped = mapped_cells(alloc, pool.filesystems.items())?;
    let needed = needed(&fs.map, mapped.items(), stretches.items());
    let more = more(&fs.map, stretches.items());
    Ok(Plan {
        stretches,
        mapped,
        needed,
        more,
    })
}

/// The refusal for want of mappings, of cells or of commits.
fn want(pool: &PoolState, plan: &Plan) -> Option<Reply>
    ensures { result ≡ first_answer (wants plan.now pool.now) }
{
    let mappings = plan.mapped.len() as u64;
    if (MAX_MAPPINGS as u128) < mappings as u128 + plan.more as u128 {
        return Some(Reply::refused(Cause::MappingFull(mappings, plan.more)));
    }
    let free = pool.allocated.saturating_sub(pool.cells.len() as u64);
    if free < plan.needed {
        return Some(Reply::refused(Cause::NoSpace(free, plan.needed)));
    }
    if plan.needed == 0 { None } else { worn(pool) }
}

/// The answer that changes nothing, where there is one.
pub(crate) fn write_answer(
    pool: &PoolState,
    fs: &FsState,
    sector: u64,
    sectors: u64,
    plan: &Plan,
) -> Result<Option<Reply>, NoMemory>
    ensures answer { IfOk result (λ reply. reply ≡ first_answer (planned_answers plan.now fs.now sector sectors pool.now)) }
    ensures few { IfOk result (λ reply. reply ≡ None → sectors ≤ 128) }
{
    if sectors == 0 || MAX_WRITE_SECTORS < sectors {
        return Ok(Some(Reply::refused(Cause::BadSize(fs.row.name.copy()?))));
    }
    if is_out_of_range(fs, sector, sectors) {
        return Ok(Some(Reply::refused(Cause::OutOfRange)));
    }
    Ok(want(pool, plan))
}

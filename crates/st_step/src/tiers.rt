ghost use Rattle.std.specs.Prelude.{◌≡◌, IfOk};
ghost use Rattle.st_limits.specs.Sums.{cache_capacity};
ghost use Rattle.st_model.specs.Checks.{rows_on, sectors_of};
ghost use Rattle.st_model.specs.Flight.{cache_paths, new_to};
ghost use Rattle.st_model.specs.Sums.{AreSmall, cache_rows, sectors_in};
ghost use Rattle.st_model.specs.steps.CreatePool.{data_paths};
ghost use Rattle.st_step.specs.Adding.{outside};

use st_limits::usable_blocks;
use st_model::look;
use st_units::{DevList, DevPath, DevRow, DevRows, NoMemory, Tier};
use std::alloc::Global;

/// The devices of the data tier.
pub(crate) fn data_paths(alloc: Global, rows: &[DevRow]) -> Result<DevList, NoMemory>
    ensures { IfOk result (λ list. list ≡ data_paths rows.now) }
{
    let mut list = DevList::make(alloc);
    for row in rows {
        if row.tier == Tier::DataTier {
            list.push(row.path.copy()?)?;
        }
    }
    Ok(list)
}

/// The devices of the cache tier.
pub(crate) fn cache_paths(alloc: Global, rows: &[DevRow]) -> Result<DevList, NoMemory>
    ensures { IfOk result (λ list. list ≡ cache_paths rows.now) }
{
    let mut list = DevList::make(alloc);
    for row in rows {
        if row.tier == Tier::CacheTier {
            list.push(row.path.copy()?)?;
        }
    }
    Ok(list)
}

/// The blocks of the cache tier.
pub(crate) fn cache_capacity(rows: &[DevRow]) -> u64
    requires { AreSmall rows.now }
    ensures { result ≡ cache_capacity (sectors_in (cache_rows rows.now)) }
{
    let mut blocks = 0;
    for row in rows {
        if row.tier == Tier::CacheTier {
            blocks += usable_blocks(row.sectors);
        }
    }
    blocks
}

/// Those that aren't in the tier.
fn outside(alloc: Global, tier: &[DevPath], paths: &[DevPath]) -> Result<DevList, NoMemory>
    ensures { IfOk result (λ list. list ≡ outside tier.now paths.now) }
{
    let mut list = DevList::make(alloc);
    for path in paths {
        if !look::has_path(tier, path) {
            list.push(path.copy()?)?;
        }
    }
    Ok(list)
}

/// The devices that are new to the tier, each once.
pub(crate) fn new_to(
    alloc: Global,
    tier: &[DevPath],
    devices: &[DevPath],
) -> Result<DevList, NoMemory>
    ensures { IfOk result (λ list. list ≡ new_to tier.now devices.now) }
{
    outside(alloc, tier, look::distinct(alloc, devices)?.items())
}

fn sectors_of(rack: &[DevRow], path: &DevPath) -> u64
    ensures { result ≡ sectors_of path.now rack.now }
{
    match look::row_of(rack, path) {
        Some(row) => row.sectors,
        None => 0,
    }
}

/// A row of the tier for each of the paths.
pub(crate) fn rows_on(
    alloc: Global,
    tier: Tier,
    rack: &[DevRow],
    paths: &[DevPath],
) -> Result<DevRows, NoMemory>
    ensures { IfOk result (λ list. list ≡ rows_on tier rack.now paths.now) }
{
    let mut list = DevRows::make(alloc);
    for path in paths {
        list.push(DevRow {
            path: path.copy()?,
            tier,
            sectors: sectors_of(rack, path),
        })?;
    }
    Ok(list)
}

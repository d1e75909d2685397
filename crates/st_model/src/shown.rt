ghost use Rattle.std.specs.Prelude.{◌≡◌, ◌≤◌, ◌+◌, ◌*◌, length, sum_by, IfOk, OnOk, OnErr, insert, option_map, option_copied, map, take_while};
ghost use Rattle.st_limits.specs.Sums.{usable_blocks};
ghost use Rattle.st_units.specs.declared.rows.DevRow.{DevRow};
ghost use Rattle.st_model.specs.Sums.{AreSmall, data_tier, sectors_in, room};
ghost use Rattle.st_model.specs.Shown.{shown_mode, fs_info, cache_info, pool_info, stopped_row, place_among, place_among_stopped};

use crate::info::{
    CacheInfo, FsInfo, FsInfoList, Infos, PoolInfo, ShownMode, StoppedList, StoppedRow,
};
use crate::state::{CacheState, FsState, PoolMode, PoolState};
use st_limits::{FLEX_BLOCKS, usable_blocks};
use st_units::{DevRow, Name, NoMemory, Shared, Tier};
use std::alloc::Global;

fn shown_mode(mode: &PoolMode) -> ShownMode
    ensures { result ≡ shown_mode mode.now }
{
    match mode {
        PoolMode::Up => ShownMode::Up,
        PoolMode::Down(_) => ShownMode::Down,
        PoolMode::Stopped => ShownMode::Stopped,
        PoolMode::Unsettled(_) => ShownMode::Unsettled,
        PoolMode::Incomplete(_) => ShownMode::Incomplete,
    }
}

fn fs_infos(alloc: Global, filesystems: &[FsState]) -> Result<FsInfoList, NoMemory>
    ensures { IfOk result (λ list. list ≡ map fs_info filesystems.now) }
{
    let mut list = FsInfoList::make(alloc);
    for fs in filesystems {
        list.push(FsInfo {
            row: fs.row.copy()?,
            mapped: fs.map.len() as u64,
        })?;
    }
    Ok(list)
}

fn cache_info(cache: &CacheState) -> CacheInfo
    ensures { result ≡ cache_info cache.now }
{
    CacheInfo {
        blocks: cache.capacity,
        hits: cache.hits,
        misses: cache.misses,
        used: cache.cells.len() as u64,
    }
}

fn shown_cache(cache: Option<&CacheState>) -> Option<CacheInfo>
    ensures { result ≡ option_map cache_info (option_copied cache.entry) }
{
    match cache {
        Some(cache) => Some(cache_info(cache)),
        None => None,
    }
}

/// The blocks of the data tier, before the records take theirs.
fn data_blocks(rows: &[DevRow]) -> u64
    requires { AreSmall rows.now }
    ensures { result ≡ sum_by usable_blocks (sectors_in (data_tier rows.now)) }
{
    let mut blocks = 0;
    for row in rows {
        if row.tier == Tier::DataTier {
            blocks += usable_blocks(row.sectors);
        }
    }
    blocks
}

/// The blocks that the pool's data tier could give.
pub fn room(pool: &PoolState) -> u64
    requires { AreSmall pool.now.devices }
    ensures { result ≡ room pool.now }
{
    data_blocks(pool.devices.items()).saturating_sub(FLEX_BLOCKS)
}

#[tactic(auto, unfolding(crate::specs::Shown::pool_info))]
fn pool_info(alloc: Global, pool: &PoolState) -> Result<PoolInfo, NoMemory>
    requires { AreSmall pool.now.devices }
    ensures { IfOk result (λ info. info ≡ pool_info pool.now) }
{
    Ok(PoolInfo {
        serial: pool.serial,
        name: pool.name.copy()?,
        mode: shown_mode(&pool.mode),
        devs: pool.devices.copy(alloc)?,
        filesystems: fs_infos(alloc, pool.filesystems.items())?,
        fs_limit: pool.filesystem_limit,
        overprovisioning: pool.overprovisioning,
        room: room(pool),
        allocated: pool.allocated,
        used: pool.cells.len() as u64,
        cache: shown_cache(pool.cache.as_ref()),
    })
}

/// What a report shows of the pool.
pub fn shared_info(alloc: Global, pool: &PoolState) -> Result<Shared<PoolInfo>, NoMemory>
    requires { AreSmall pool.now.devices }
    ensures { IfOk result (λ info. info ≡ pool_info pool.now) }
{
    match Shared::make(alloc, pool_info(alloc, pool)?) {
        Ok(info) => Ok(info),
        Err(_) => Err(NoMemory),
    }
}

fn place_of(infos: &[Shared<PoolInfo>], name: &Name) -> usize
    ensures value { result ≡ place_among infos.now name.now }
    ensures within { result ≤ length infos.now }
{
    infos
        .iter()
        .take_while(|info| info.value().name.bytes().cmp(name.bytes()).is_lt())
        .count()
}

/// Puts the info behind all those of lower names.
pub fn insert_info(list: &mut Infos<PoolInfo>, info: Shared<PoolInfo>) -> Result<(), NoMemory>
    ensures ok { OnOk result (list.new ≡ insert list.old (place_among list.old info.name) info) }
    ensures err { OnErr result (list.new ≡ list.old) }
{
    let place = place_of(list.items(), &info.value().name);
    list.insert(place, info)
}

#[tactic(auto, unfolding(crate::specs::Shown::stopped_row))]
fn stopped_row(pool: &PoolState) -> Result<StoppedRow, NoMemory>
    ensures { IfOk result (λ row. row ≡ stopped_row pool.now) }
{
    Ok(StoppedRow {
        name: pool.name.copy()?,
        serial: pool.serial,
        mode: shown_mode(&pool.mode),
    })
}

fn stopped_place(rows: &[StoppedRow], name: &Name) -> usize
    ensures value { result ≡ place_among_stopped rows.now name.now }
    ensures within { result ≤ length rows.now }
{
    rows.iter()
        .take_while(|row| row.name.bytes().cmp(name.bytes()).is_lt())
        .count()
}

/// Puts the pool's row behind all those of lower names.
pub fn insert_stopped(list: &mut StoppedList, pool: &PoolState) -> Result<(), NoMemory>
    ensures ok { OnOk result (list.new ≡ insert list.old (place_among_stopped list.old pool.now.name) (stopped_row pool.now)) }
    ensures err { OnErr result (list.new ≡ list.old) }
{
    let place = stopped_place(list.items(), &pool.name);
    list.insert(place, stopped_row(pool)?)
}

ghost use Rattle.std.specs.Prelude.{◌≡◌, ◌≤◌, ◌^◌, map, OnOk, Some};
ghost use Rattle.st_json.specs.Adds.{AddsData, AddsItems};
ghost use Rattle.st_report.specs.Pool.{tier_text, device_data, devices_data, cache_data, origin_data, filesystem_data, filesystems_data, pool_data, pools_data};

use crate::identity::put_uuid;
use crate::values::put_count_or_null;
use json::Writer;
use st_json::{
    bool_member, close_list, close_object, count_member, name_member, open_list, open_object,
    put_count, put_key, put_null, put_text,
};
use st_model::{CacheInfo, FsInfo, Identity, PoolInfo};
use st_units::{DevRow, NoMemory, PoolSerial, Shared, Tier};

fn tier_text(tier: Tier) -> &'static str
    ensures { result.now ≡ tier_text tier }
{
    match tier {
        Tier::DataTier => "data",
        Tier::CacheTier => "cache",
    }
}

#[tactic(auto, unfolding(crate::specs::Pool::device_data))]
fn put_device(out: &mut Writer, row: &DevRow) -> Result<(), NoMemory>
    ensures { OnOk result (AddsData out.old out.new (device_data row.now)) }
{
    open_list(out)?;
    put_text(out, row.path.as_str())?;
    put_text(out, tier_text(row.tier))?;
    put_count(out, row.sectors)?;
    close_list(out)?;
    Ok(())
}

fn put_each_device(out: &mut Writer, rows: &[DevRow]) -> Result<(), NoMemory>
    ensures { OnOk result (AddsItems out.old out.new (map device_data rows.now)) }
{
    for row in rows {
        put_device(out, row)?;
    }
    Ok(())
}

#[tactic(auto, unfolding(crate::specs::Pool::devices_data))]
fn put_devices(out: &mut Writer, rows: &[DevRow]) -> Result<(), NoMemory>
    ensures { OnOk result (AddsData out.old out.new (devices_data rows.now)) }
{
    open_list(out)?;
    put_each_device(out, rows)?;
    close_list(out)?;
    Ok(())
}

#[tactic(auto, unfolding(crate::specs::Pool::cache_data))]
fn put_counts(out: &mut Writer, cache: CacheInfo) -> Result<(), NoMemory>
    ensures { OnOk result (AddsData out.old out.new (cache_data (Some cache))) }
{
    open_object(out)?;
    count_member(out, "blocks", cache.blocks)?;
    count_member(out, "hits", cache.hits)?;
    count_member(out, "misses", cache.misses)?;
    count_member(out, "used", cache.used)?;
    close_object(out)?;
    Ok(())
}

#[tactic(auto, unfolding(crate::specs::Pool::cache_data))]
fn put_cache(out: &mut Writer, cache: Option<CacheInfo>) -> Result<(), NoMemory>
    ensures { OnOk result (AddsData out.old out.new (cache_data cache)) }
{
    match cache {
        Some(cache) => put_counts(out, cache),
        None => put_null(out),
    }
}

/// The filesystem that this one is a snapshot of, by its UUID, or null.
#[tactic(auto, unfolding(crate::specs::Pool::origin_data))]
fn put_origin(out: &mut Writer, pool: PoolSerial, origin: Option<u64>) -> Result<(), NoMemory>
    ensures { OnOk result (AddsData out.old out.new (origin_data pool origin)) }
{
    match origin {
        Some(serial) => put_uuid(out, Identity::Filesystem(pool, serial)),
        None => put_null(out),
    }
}

#[tactic(auto, unfolding(crate::specs::Pool::filesystem_data))]
fn put_filesystem(out: &mut Writer, pool: PoolSerial, info: &FsInfo) -> Result<(), NoMemory>
    ensures { OnOk result (AddsData out.old out.new (filesystem_data pool info.now)) }
{
    let row = &info.row;
    open_object(out)?;
    put_key(out, "limit")?;
    put_count_or_null(out, row.limit)?;
    count_member(out, "mapped", info.mapped)?;
    bool_member(out, "merge", row.merge)?;
    name_member(out, "name", &row.name)?;
    put_key(out, "origin")?;
    put_origin(out, pool, row.origin)?;
    count_member(out, "size", row.size)?;
    put_key(out, "uuid")?;
    put_uuid(out, Identity::Filesystem(pool, row.serial))?;
    close_object(out)?;
    Ok(())
}

fn put_each_filesystem(out: &mut Writer, pool: PoolSerial, infos: &[FsInfo]) -> Result<(), NoMemory>
    ensures { OnOk result (AddsItems out.old out.new (map (filesystem_data pool) infos.now)) }
{
    for info in infos {
        put_filesystem(out, pool, info)?;
    }
    Ok(())
}

#[tactic(auto, unfolding(crate::specs::Pool::filesystems_data))]
fn put_filesystems(out: &mut Writer, pool: PoolSerial, infos: &[FsInfo]) -> Result<(), NoMemory>
    ensures { OnOk result (AddsData out.old out.new (filesystems_data pool infos.now)) }
{
    open_list(out)?;
    put_each_filesystem(out, pool, infos)?;
    close_list(out)?;
    Ok(())
}

/// The report of a pool.
#[tactic(auto, unfolding(crate::specs::Pool::pool_data))]
pub fn put_pool(out: &mut Writer, info: &PoolInfo) -> Result<(), NoMemory>
    ensures { OnOk result (AddsData out.old out.new (pool_data info.now)) }
{
    open_object(out)?;
    count_member(out, "allocated", info.allocated)?;
    put_key(out, "cache")?;
    put_cache(out, info.cache)?;
    put_key(out, "devices")?;
    put_devices(out, info.devs.items())?;
    put_key(out, "filesystems")?;
    put_filesystems(out, info.serial, info.filesystems.items())?;
    count_member(out, "fs_limit", info.fs_limit)?;
    name_member(out, "name", &info.name)?;
    bool_member(out, "overprovisioning", info.overprovisioning)?;
    count_member(out, "room", info.room)?;
    count_member(out, "used", info.used)?;
    put_key(out, "uuid")?;
    put_uuid(out, Identity::Pool(info.serial))?;
    close_object(out)?;
    Ok(())
}

fn put_each_pool(out: &mut Writer, infos: &[Shared<PoolInfo>]) -> Result<(), NoMemory>
    ensures { OnOk result (AddsItems out.old out.new (map pool_data infos.now)) }
{
    for info in infos {
        put_pool(out, info.value())?;
    }
    Ok(())
}

/// The reports of several pools, in their order.
#[tactic(auto, unfolding(crate::specs::Pool::pools_data))]
pub fn put_pools(out: &mut Writer, infos: &[Shared<PoolInfo>]) -> Result<(), NoMemory>
    ensures { OnOk result (AddsData out.old out.new (pools_data infos.now)) }
{
    open_list(out)?;
    put_each_pool(out, infos)?;
    close_list(out)?;
    Ok(())
}

ghost use Rattle.std.specs.Prelude.{OnOk};
ghost use Rattle.st_json.specs.Adds.{AddsData};
ghost use Rattle.st_trace.specs.Calls.{call_data};

use crate::fs_call::{
    put_create_fs, put_destroy_fs, put_fs_limit, put_merge, put_overprovisioning, put_rename_fs,
    put_reports, put_size_limit, put_snapshot,
};
use crate::pool_call::{
    put_bare_call, put_create, put_devices_call, put_named_call, put_pool_call, put_rename,
    put_start,
};
use crate::sector_call::{put_read, put_write};
use json::Writer;
use st_model::Call;
use st_units::NoMemory;
use std::alloc::Global;

/// The call with its members, as it was given.
#[tactic(auto, unfolding(crate::specs::Calls::call_data))]
pub(crate) fn put_call(alloc: Global, out: &mut Writer, call: &Call) -> Result<(), NoMemory>
    ensures { OnOk result (AddsData out.old out.new (call_data call.now)) }
{
    match call {
        Call::CreatePool { name, devices } => put_create(out, name, devices),
        Call::DestroyPool { name } => put_named_call(out, "DestroyPool", name),
        Call::StopPool { name } => put_named_call(out, "StopPool", name),
        Call::StartPool { id } => put_start(alloc, out, id),
        Call::RenamePool { name, new } => put_rename(out, name, new),
        Call::AddDataDevs { pool, devices } => put_devices_call(out, "AddDataDevs", pool, devices),
        Call::InitCache { pool, devices } => put_devices_call(out, "InitCache", pool, devices),
        Call::AddCacheDevs { pool, devices } => put_devices_call(
            out,
            "AddCacheDevs",
            pool,
            devices,
        ),
        Call::CreateFilesystems { pool, filesystems } => put_create_fs(out, pool, filesystems),
        Call::DestroyFilesystems { pool, names } => put_destroy_fs(out, pool, names),
        Call::SnapshotFilesystem { pool, origin, name } => put_snapshot(out, pool, origin, name),
        Call::RenameFilesystem { pool, name, new } => put_rename_fs(out, pool, name, new),
        Call::SetSizeLimit { pool, name, limit } => put_size_limit(out, pool, name, *limit),
        Call::SetFsLimit { pool, limit } => put_fs_limit(out, pool, *limit),
        Call::SetOverprovisioning { pool, value } => put_overprovisioning(out, pool, *value),
        Call::SetMerge { pool, name, value } => put_merge(out, pool, name, *value),
        Call::FsWrite {
            pool,
            name,
            sector,
            payload,
        } => { put_write(alloc, out, pool, name, *sector, payload) }
        Call::FsRead {
            pool,
            name,
            sector,
            sectors,
        } => { put_read(out, pool, name, *sector, *sectors) }
        Call::Check { pool } => put_pool_call(out, "Check", pool),
        Call::PoolReport { pool } => put_pool_call(out, "PoolReport", pool),
        Call::PoolReports { pools } => put_reports(out, pools),
        Call::EngineStateReport => put_bare_call(out, "EngineStateReport"),
        Call::PowerCycle => put_bare_call(out, "PowerCycle"),
    }
}

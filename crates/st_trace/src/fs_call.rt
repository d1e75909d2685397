ghost use Rattle.std.specs.Prelude.{OnOk, map};
ghost use Rattle.serde_json.specs.Data.{string};
ghost use Rattle.st_json.specs.Adds.{AddsData, AddsItems};
ghost use Rattle.st_report.specs.Values.{texts};
ghost use Rattle.st_trace.specs.Calls.{fs_spec, fs_specs, create_fs_call, destroy_fs_call, snapshot_call, rename_fs_call, size_limit_call, fs_limit_call, overprovisioning_call, merge_call, reports_call};

use json::Writer;
use st_json::{
    bool_member, close_list, close_object, count_member, name_member, open_list, open_object,
    put_key, put_name, text_member,
};
use st_report::put_count_or_null;
use st_units::{FsSpec, FsSpecList, Name, NameList, NoMemory};

#[tactic(auto, unfolding(crate::specs::Calls::fs_spec))]
fn put_spec(out: &mut Writer, fs: &FsSpec) -> Result<(), NoMemory>
    ensures { OnOk result (AddsData out.old out.new (fs_spec fs.now)) }
{
    open_object(out)?;
    put_key(out, "limit")?;
    put_count_or_null(out, fs.limit)?;
    name_member(out, "name", &fs.name)?;
    put_key(out, "size")?;
    put_count_or_null(out, fs.size)?;
    close_object(out)?;
    Ok(())
}

fn put_each_spec(out: &mut Writer, filesystems: &[FsSpec]) -> Result<(), NoMemory>
    ensures { OnOk result (AddsItems out.old out.new (map fs_spec filesystems.now)) }
{
    for fs in filesystems {
        put_spec(out, fs)?;
    }
    Ok(())
}

#[tactic(auto, unfolding(crate::specs::Calls::fs_specs))]
fn put_specs(out: &mut Writer, filesystems: &[FsSpec]) -> Result<(), NoMemory>
    ensures { OnOk result (AddsData out.old out.new (fs_specs filesystems.now)) }
{
    open_list(out)?;
    put_each_spec(out, filesystems)?;
    close_list(out)?;
    Ok(())
}

fn put_each_name(out: &mut Writer, names: &[Name]) -> Result<(), NoMemory>
    ensures { OnOk result (AddsItems out.old out.new (map string names.now)) }
{
    for name in names {
        put_name(out, name)?;
    }
    Ok(())
}

#[tactic(auto, unfolding(st_report::specs::Values::texts))]
pub(crate) fn put_names(out: &mut Writer, names: &[Name]) -> Result<(), NoMemory>
    ensures { OnOk result (AddsData out.old out.new (texts names.now)) }
{
    open_list(out)?;
    put_each_name(out, names)?;
    close_list(out)?;
    Ok(())
}

#[tactic(auto, unfolding(crate::specs::Calls::create_fs_call))]
pub(crate) fn put_create_fs(
    out: &mut Writer,
    pool: &Name,
    filesystems: &FsSpecList,
) -> Result<(), NoMemory>
    ensures { OnOk result (AddsData out.old out.new (create_fs_call pool.now filesystems.now)) }
{
    open_object(out)?;
    text_member(out, "call", "CreateFilesystems")?;
    put_key(out, "filesystems")?;
    put_specs(out, filesystems.items())?;
    name_member(out, "pool", pool)?;
    close_object(out)?;
    Ok(())
}

#[tactic(auto, unfolding(crate::specs::Calls::destroy_fs_call))]
pub(crate) fn put_destroy_fs(
    out: &mut Writer,
    pool: &Name,
    names: &NameList,
) -> Result<(), NoMemory>
    ensures { OnOk result (AddsData out.old out.new (destroy_fs_call pool.now names.now)) }
{
    open_object(out)?;
    text_member(out, "call", "DestroyFilesystems")?;
    put_key(out, "names")?;
    put_names(out, names.items())?;
    name_member(out, "pool", pool)?;
    close_object(out)?;
    Ok(())
}

#[tactic(auto, unfolding(crate::specs::Calls::snapshot_call))]
pub(crate) fn put_snapshot(
    out: &mut Writer,
    pool: &Name,
    origin: &Name,
    name: &Name,
) -> Result<(), NoMemory>
    ensures { OnOk result (AddsData out.old out.new (snapshot_call pool.now origin.now name.now)) }
{
    open_object(out)?;
    text_member(out, "call", "SnapshotFilesystem")?;
    name_member(out, "name", name)?;
    name_member(out, "origin", origin)?;
    name_member(out, "pool", pool)?;
    close_object(out)?;
    Ok(())
}

#[tactic(auto, unfolding(crate::specs::Calls::rename_fs_call))]
pub(crate) fn put_rename_fs(
    out: &mut Writer,
    pool: &Name,
    name: &Name,
    new: &Name,
) -> Result<(), NoMemory>
    ensures { OnOk result (AddsData out.old out.new (rename_fs_call pool.now name.now new.now)) }
{
    open_object(out)?;
    text_member(out, "call", "RenameFilesystem")?;
    name_member(out, "name", name)?;
    name_member(out, "new", new)?;
    name_member(out, "pool", pool)?;
    close_object(out)?;
    Ok(())
}

#[tactic(auto, unfolding(crate::specs::Calls::size_limit_call))]
pub(crate) fn put_size_limit(
    out: &mut Writer,
    pool: &Name,
    name: &Name,
    limit: Option<u64>,
) -> Result<(), NoMemory>
    ensures { OnOk result (AddsData out.old out.new (size_limit_call pool.now name.now limit)) }
{
    open_object(out)?;
    text_member(out, "call", "SetSizeLimit")?;
    put_key(out, "limit")?;
    put_count_or_null(out, limit)?;
    name_member(out, "name", name)?;
    name_member(out, "pool", pool)?;
    close_object(out)?;
    Ok(())
}

#[tactic(auto, unfolding(crate::specs::Calls::fs_limit_call))]
pub(crate) fn put_fs_limit(out: &mut Writer, pool: &Name, limit: u64) -> Result<(), NoMemory>
    ensures { OnOk result (AddsData out.old out.new (fs_limit_call pool.now limit)) }
{
    open_object(out)?;
    text_member(out, "call", "SetFsLimit")?;
    count_member(out, "limit", limit)?;
    name_member(out, "pool", pool)?;
    close_object(out)?;
    Ok(())
}

#[tactic(auto, unfolding(crate::specs::Calls::overprovisioning_call))]
pub(crate) fn put_overprovisioning(
    out: &mut Writer,
    pool: &Name,
    value: bool,
) -> Result<(), NoMemory>
    ensures { OnOk result (AddsData out.old out.new (overprovisioning_call pool.now value)) }
{
    open_object(out)?;
    text_member(out, "call", "SetOverprovisioning")?;
    name_member(out, "pool", pool)?;
    bool_member(out, "value", value)?;
    close_object(out)?;
    Ok(())
}

#[tactic(auto, unfolding(crate::specs::Calls::merge_call))]
pub(crate) fn put_merge(
    out: &mut Writer,
    pool: &Name,
    name: &Name,
    value: bool,
) -> Result<(), NoMemory>
    ensures { OnOk result (AddsData out.old out.new (merge_call pool.now name.now value)) }
{
    open_object(out)?;
    text_member(out, "call", "SetMerge")?;
    name_member(out, "name", name)?;
    name_member(out, "pool", pool)?;
    bool_member(out, "value", value)?;
    close_object(out)?;
    Ok(())
}

#[tactic(auto, unfolding(crate::specs::Calls::reports_call))]
pub(crate) fn put_reports(out: &mut Writer, pools: &NameList) -> Result<(), NoMemory>
    ensures { OnOk result (AddsData out.old out.new (reports_call pools.now)) }
{
    open_object(out)?;
    text_member(out, "call", "PoolReports")?;
    put_key(out, "pools")?;
    put_names(out, pools.items())?;
    close_object(out)?;
    Ok(())
}

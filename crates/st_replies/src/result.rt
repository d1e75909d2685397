ghost use Rattle.std.specs.Prelude.{Bool, OnOk, map};
ghost use Rattle.hex.specs.Hex.{encode_lower};
ghost use Rattle.serde_json.specs.Data.{null, string};
ghost use Rattle.st_model.specs.declared.reply.Identity.TheVariants.{Pool};
ghost use Rattle.st_json.specs.Adds.{AddsData, AddsItems};
ghost use Rattle.st_report.specs.Values.{count, texts};
ghost use Rattle.st_replies.specs.Results.{pair, told, identity_data, identity_or_null, created_data, new_filesystem, new_filesystems, identities_data, result_data};

use json::Writer;
use st_json::{close_list, open_list, put_bool, put_count, put_name, put_null, put_text};
use st_model::{Given, Identity, NewFs};
use st_report::{put_engine, put_paths, put_pool, put_pools, put_uuid};
use st_units::{Bytes, DevList, NoMemory, PoolSerial};
use std::alloc::Global;

#[tactic(auto, unfolding(crate::specs::Results::identity_data))]
fn put_identity(out: &mut Writer, identity: Identity) -> Result<(), NoMemory>
    ensures { OnOk result (AddsData out.old out.new (identity_data identity)) }
{
    put_uuid(out, identity)
}

#[tactic(auto, unfolding(crate::specs::Results::identity_or_null))]
fn put_identity_or_null(out: &mut Writer, identity: Option<Identity>) -> Result<(), NoMemory>
    ensures { OnOk result (AddsData out.old out.new (identity_or_null identity)) }
{
    match identity {
        Some(identity) => put_identity(out, identity),
        None => put_null(out),
    }
}

/// A new pool and its devices.
fn put_new_pool(out: &mut Writer, serial: PoolSerial, paths: &DevList) -> Result<(), NoMemory>
    ensures { OnOk result (AddsData out.old out.new (pair (identity_data (Pool serial)) (texts paths.now))) }
{
    open_list(out)?;
    put_identity(out, Identity::Pool(serial))?;
    put_paths(out, paths.items())?;
    close_list(out)?;
    Ok(())
}

#[tactic(auto, unfolding(crate::specs::Results::created_data))]
fn put_made(out: &mut Writer, made: &Option<(PoolSerial, DevList)>) -> Result<(), NoMemory>
    ensures { OnOk result (AddsData out.old out.new (created_data made.now)) }
{
    match made {
        Some((serial, paths)) => put_new_pool(out, *serial, paths),
        None => put_null(out),
    }
}

#[tactic(auto, unfolding(crate::specs::Results::new_filesystem))]
fn put_new_filesystem(out: &mut Writer, fs: &NewFs) -> Result<(), NoMemory>
    ensures { OnOk result (AddsData out.old out.new (new_filesystem fs.now)) }
{
    open_list(out)?;
    put_name(out, &fs.name)?;
    put_identity(out, fs.identity)?;
    close_list(out)?;
    Ok(())
}

fn put_each_new_filesystem(out: &mut Writer, list: &[NewFs]) -> Result<(), NoMemory>
    ensures { OnOk result (AddsItems out.old out.new (map new_filesystem list.now)) }
{
    for fs in list {
        put_new_filesystem(out, fs)?;
    }
    Ok(())
}

#[tactic(auto, unfolding(crate::specs::Results::new_filesystems))]
fn put_new_filesystems(out: &mut Writer, list: &[NewFs]) -> Result<(), NoMemory>
    ensures { OnOk result (AddsData out.old out.new (new_filesystems list.now)) }
{
    open_list(out)?;
    put_each_new_filesystem(out, list)?;
    close_list(out)?;
    Ok(())
}

fn put_each_identity(out: &mut Writer, list: &[Identity]) -> Result<(), NoMemory>
    ensures { OnOk result (AddsItems out.old out.new (map identity_data list.now)) }
{
    for identity in list {
        put_identity(out, *identity)?;
    }
    Ok(())
}

#[tactic(auto, unfolding(crate::specs::Results::identities_data))]
fn put_identities(out: &mut Writer, list: &[Identity]) -> Result<(), NoMemory>
    ensures { OnOk result (AddsData out.old out.new (identities_data list.now)) }
{
    open_list(out)?;
    put_each_identity(out, list)?;
    close_list(out)?;
    Ok(())
}

/// The blocks added and the filesystems grown.
fn put_counts(out: &mut Writer, added: u64, grown: u64) -> Result<(), NoMemory>
    ensures { OnOk result (AddsData out.old out.new (pair (count added) (count grown))) }
{
    open_list(out)?;
    put_count(out, added)?;
    put_count(out, grown)?;
    close_list(out)?;
    Ok(())
}

/// The bytes in hexadecimal digits.
pub fn put_bytes(alloc: Global, out: &mut Writer, bytes: &Bytes) -> Result<(), NoMemory>
    ensures { OnOk result (AddsData out.old out.new (string (encode_lower bytes.now))) }
{
    let digits = hex::encode(alloc, bytes.items())?;
    put_text(out, digits.as_str())
}

// Whether anything was changed, and what comes of it.

fn put_created(
    out: &mut Writer,
    changed: bool,
    made: &Option<(PoolSerial, DevList)>,
) -> Result<(), NoMemory>
    ensures { OnOk result (AddsData out.old out.new (told changed (created_data made.now))) }
{
    open_list(out)?;
    put_bool(out, changed)?;
    put_made(out, made)?;
    close_list(out)?;
    Ok(())
}

fn put_changed(out: &mut Writer, changed: bool, identity: Option<Identity>) -> Result<(), NoMemory>
    ensures { OnOk result (AddsData out.old out.new (told changed (identity_or_null identity))) }
{
    open_list(out)?;
    put_bool(out, changed)?;
    put_identity_or_null(out, identity)?;
    close_list(out)?;
    Ok(())
}

fn put_added(out: &mut Writer, changed: bool, paths: &DevList) -> Result<(), NoMemory>
    ensures { OnOk result (AddsData out.old out.new (told changed (texts paths.now))) }
{
    open_list(out)?;
    put_bool(out, changed)?;
    put_paths(out, paths.items())?;
    close_list(out)?;
    Ok(())
}

fn put_created_filesystems(out: &mut Writer, changed: bool, list: &[NewFs]) -> Result<(), NoMemory>
    ensures { OnOk result (AddsData out.old out.new (told changed (new_filesystems list.now))) }
{
    open_list(out)?;
    put_bool(out, changed)?;
    put_new_filesystems(out, list)?;
    close_list(out)?;
    Ok(())
}

fn put_destroyed_filesystems(
    out: &mut Writer,
    changed: bool,
    list: &[Identity],
) -> Result<(), NoMemory>
    ensures { OnOk result (AddsData out.old out.new (told changed (identities_data list.now))) }
{
    open_list(out)?;
    put_bool(out, changed)?;
    put_identities(out, list)?;
    close_list(out)?;
    Ok(())
}

fn put_done(out: &mut Writer, changed: bool) -> Result<(), NoMemory>
    ensures { OnOk result (AddsData out.old out.new (told changed null)) }
{
    open_list(out)?;
    put_bool(out, changed)?;
    put_null(out)?;
    close_list(out)?;
    Ok(())
}

fn put_written(out: &mut Writer, sectors: u64) -> Result<(), NoMemory>
    ensures { OnOk result (AddsData out.old out.new (told Bool.true (count sectors))) }
{
    open_list(out)?;
    put_bool(out, true)?;
    put_count(out, sectors)?;
    close_list(out)?;
    Ok(())
}

fn put_checked(out: &mut Writer, changed: bool, added: u64, grown: u64) -> Result<(), NoMemory>
    ensures { OnOk result (AddsData out.old out.new (told changed (pair (count added) (count grown)))) }
{
    open_list(out)?;
    put_bool(out, changed)?;
    put_counts(out, added, grown)?;
    close_list(out)?;
    Ok(())
}

/// What was given, or null where the call was refused.
#[tactic(auto, unfolding(crate::specs::Results::result_data))]
pub(crate) fn put_result(
    alloc: Global,
    out: &mut Writer,
    given: &Option<Given>,
) -> Result<(), NoMemory>
    ensures { OnOk result (AddsData out.old out.new (result_data given.now)) }
{
    match given {
        None => put_null(out),
        Some(Given::Created(changed, made)) => put_created(out, *changed, made),
        Some(Given::Changed(changed, identity)) => put_changed(out, *changed, *identity),
        Some(Given::Added(changed, paths)) => put_added(out, *changed, paths),
        Some(Given::CreatedFilesystems(changed, list)) => {
            put_created_filesystems(out, *changed, list.items())
        }
        Some(Given::DestroyedFilesystems(changed, list)) => {
            put_destroyed_filesystems(out, *changed, list.items())
        }
        Some(Given::Done(changed)) => put_done(out, *changed),
        Some(Given::Written(sectors)) => put_written(out, *sectors),
        Some(Given::Read(bytes)) => put_bytes(alloc, out, bytes),
        Some(Given::Checked(changed, added, grown)) => put_checked(out, *changed, *added, *grown),
        Some(Given::Pool(info)) => put_pool(out, info.value()),
        Some(Given::Pools(infos)) => put_pools(out, infos.items()),
        Some(Given::Engine(table, infos)) => put_engine(out, table.value(), infos.items()),
        Some(Given::Accepted) => put_text(out, "accepted"),
    }
}

ghost use Rattle.std.specs.Prelude.{◌≡◌, IfOk, option_copied, option_map};
ghost use Rattle.st_calls.specs.inner.View.{view};
ghost use Rattle.st_calls.specs.Gives.{Gives};
ghost use Rattle.serde_json.specs.Read.{read};
ghost use Rattle.st_units.specs.declared.cause.Member.TheVariants as members;
ghost use Rattle.st_calls.specs.Members.{or_bad};
ghost use Rattle.st_calls.specs.Form.{json_of, object_of, lane_from, lane_of, call_name, call_of, object_form, form, IsCall};

use crate::call_name::CallName;
use crate::fault::LineFault;
use crate::fs_forms::{
    create_filesystems, destroy_filesystems, rename_filesystem, set_fs_limit, set_merge,
    set_overprovisioning, set_size_limit, snapshot_filesystem,
};
use crate::io_forms::{fs_read, fs_write};
use crate::members::text_at;
use crate::pool_forms::{
    add_cache_devs, add_data_devs, check, create_pool, destroy_pool, init_cache, pool_report,
    pool_reports, rename_pool, start_pool, stop_pool,
};
use crate::value::{as_number, fits, get, is_object};
use json::{Error, Reader, Scratch, Value};
use st_model::Call;
use st_units::Member;
use std::alloc::Global;
use std::str;

/// How deep arrays and objects may nest in a line.
const MAX_DEPTH: usize = 127;

/// The value that a text is: a number too large for a float makes it none.
fn whole<'a>(alloc: Global, scratch: &'a mut Scratch, text: &'a str) -> Result<Value<'a>, LineFault>
    ensures { Gives view result (or_bad members.Line (read text.now)) }
{
    let Ok(mut reader) = Reader::new(text, scratch) else {
        return Err(LineFault::OutOfMemory);
    };
    let value = match Value::read(alloc, &mut reader, MAX_DEPTH) {
        Ok(value) => value,
        Err(Error::OutOfMemory) => return Err(LineFault::OutOfMemory),
        Err(_) => return Err(LineFault::BadCall(Member::Line)),
    };
    if reader.next().is_some() {
        return Err(LineFault::BadCall(Member::Line));
    }
    if fits(&value) {
        Ok(value)
    } else {
        Err(LineFault::BadCall(Member::Line))
    }
}

/// What JSON a line is.
#[tactic(auto, unfolding(crate::specs::Form::json_of))]
fn json<'a>(alloc: Global, scratch: &'a mut Scratch, line: &'a [u8]) -> Result<Value<'a>, LineFault>
    ensures { Gives view result (json_of line.now) }
{
    match str::from_utf8(line) {
        Ok(text) => whole(alloc, scratch, text),
        Err(_) => Err(LineFault::BadCall(Member::Line)),
    }
}

#[tactic(auto, unfolding(crate::specs::Form::object_of))]
fn object<'a>(
    alloc: Global,
    scratch: &'a mut Scratch,
    line: &'a [u8],
) -> Result<Value<'a>, LineFault>
    ensures { Gives view result (object_of line.now) }
{
    let value = json(alloc, scratch, line)?;
    if is_object(&value) {
        Ok(value)
    } else {
        Err(LineFault::BadCall(Member::Line))
    }
}

fn lane_from(lanes: u8, lane: Option<&Value<'_>>) -> Result<u8, LineFault>
    ensures { Gives (λ lane. lane) result (lane_from lanes (option_map view (option_copied lane.entry))) }
{
    let Some(value) = lane else {
        return Ok(0);
    };
    match as_number(value) {
        Some(lane) if lane < u64::from(lanes) => Ok(lane as u8),
        _ => Err(LineFault::BadCall(Member::Lane)),
    }
}

#[tactic(auto, unfolding(crate::specs::Form::lane_of))]
fn lane_of(lanes: u8, value: &Value<'_>) -> Result<u8, LineFault>
    ensures { Gives (λ lane. lane) result (lane_of lanes (view value.now)) }
{
    lane_from(lanes, get(value, "lane"))
}

#[tactic(auto, unfolding(crate::specs::Form::call_name))]
fn call_name(value: &Value<'_>) -> Result<CallName, LineFault>
    ensures { Gives (λ name. name) result (call_name (view value.now)) }
{
    match CallName::of(text_at(value, "call", Member::Call)?) {
        Some(name) => Ok(name),
        None => Err(LineFault::BadCall(Member::Call)),
    }
}

fn call_of(alloc: Global, name: CallName, value: &Value<'_>) -> Result<Call, LineFault>
    ensures { Gives (λ call. call) result (call_of name (view value.now)) }
{
    match name {
        CallName::CreatePool => create_pool(alloc, value),
        CallName::DestroyPool => destroy_pool(alloc, value),
        CallName::StopPool => stop_pool(alloc, value),
        CallName::StartPool => start_pool(alloc, value),
        CallName::RenamePool => rename_pool(alloc, value),
        CallName::AddDataDevs => add_data_devs(alloc, value),
        CallName::InitCache => init_cache(alloc, value),
        CallName::AddCacheDevs => add_cache_devs(alloc, value),
        CallName::CreateFilesystems => create_filesystems(alloc, value),
        CallName::DestroyFilesystems => destroy_filesystems(alloc, value),
        CallName::SnapshotFilesystem => snapshot_filesystem(alloc, value),
        CallName::RenameFilesystem => rename_filesystem(alloc, value),
        CallName::SetSizeLimit => set_size_limit(alloc, value),
        CallName::SetFsLimit => set_fs_limit(alloc, value),
        CallName::SetOverprovisioning => set_overprovisioning(alloc, value),
        CallName::SetMerge => set_merge(alloc, value),
        CallName::FsWrite => fs_write(alloc, value),
        CallName::FsRead => fs_read(alloc, value),
        CallName::Check => check(alloc, value),
        CallName::PoolReport => pool_report(alloc, value),
        CallName::PoolReports => pool_reports(alloc, value),
        CallName::EngineStateReport => Ok(Call::EngineStateReport),
    }
}

#[tactic(auto, unfolding(crate::specs::Form::object_form))]
fn object_form(alloc: Global, lanes: u8, value: &Value<'_>) -> Result<(u8, Call), LineFault>
    ensures { Gives (λ read. read) result (object_form lanes (view value.now)) }
{
    let lane = lane_of(lanes, value)?;
    let name = call_name(value)?;
    let call = call_of(alloc, name, value)?;
    Ok((lane, call))
}

#[tactic(auto, unfolding(crate::specs::Form::form))]
fn read_form(
    alloc: Global,
    scratch: &mut Scratch,
    line: &[u8],
    lanes: u8,
) -> Result<(u8, Call), LineFault>
    ensures { Gives (λ read. read) result (form lanes line.now) }
{
    let value = object(alloc, scratch, line)?;
    object_form(alloc, lanes, &value)
}

/// The same as `read_call`, with the memory that reading needs kept by the caller.
pub fn read_call_with(
    alloc: Global,
    scratch: &mut Scratch,
    line: &[u8],
    lanes: u8,
) -> Result<(u8, Call), LineFault>
    ensures form { Gives (λ read. read) result (form lanes line.now) }
    ensures call { IfOk result (IsCall lanes) }
{
    read_form(alloc, scratch, line, lanes)
}

/// The call that a line is, and its lane, a number below `lanes`. The first fault in the order of
/// the form comes exactly where the form gives it; want of memory alone is free.
pub fn read_call(alloc: Global, line: &[u8], lanes: u8) -> Result<(u8, Call), LineFault>
    ensures form { Gives (λ read. read) result (form lanes line.now) }
    ensures call { IfOk result (IsCall lanes) }
{
    read_call_with(alloc, &mut Scratch::new(alloc), line, lanes)
}

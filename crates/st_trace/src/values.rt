ghost use Rattle.std.specs.Prelude.{◌≡◌, OnOk, codes};
ghost use Rattle.hex.specs.Hex.{encode_lower};
ghost use Rattle.serde_json.specs.Data.{array, item, no_items, string};
ghost use Rattle.st_json.specs.Adds.{AddsData};
ghost use Rattle.st_trace.specs.Traced.{mode_text, names_data, want_data, env_data, origin_data};

use crate::fs_call::put_names;
use json::Writer;
use st_json::{close_list, open_list, put_count, put_name, put_text};
use st_model::{Env, Origin};
use st_replies::put_bytes;
use st_units::{Bytes, Name, NoMemory};
use st_wants::{Mode, Want};
use std::alloc::Global;

fn mode_text(mode: Mode) -> &'static str
    ensures { result.now ≡ mode_text mode }
{
    match mode {
        Mode::Read => "read",
        Mode::Write => "write",
    }
}

/// One name alone, several as a list.
#[tactic(auto, unfolding(crate::specs::Traced::names_data))]
fn put_wanted(out: &mut Writer, names: &[Name]) -> Result<(), NoMemory>
    ensures { OnOk result (AddsData out.old out.new (names_data names.now)) }
{
    match names {
        [name] => put_name(out, name),
        _ => put_names(out, names),
    }
}

fn put_some(out: &mut Writer, names: &[Name], mode: Mode) -> Result<(), NoMemory>
    ensures { OnOk result (AddsData out.old out.new (array (item (string (codes "some")) (item (names_data names.now) (item (string (mode_text mode)) no_items))))) }
{
    open_list(out)?;
    put_text(out, "some")?;
    put_wanted(out, names)?;
    put_text(out, mode_text(mode))?;
    close_list(out)?;
    Ok(())
}

fn put_all(out: &mut Writer, mode: Mode) -> Result<(), NoMemory>
    ensures { OnOk result (AddsData out.old out.new (array (item (string (codes "all")) (item (string (mode_text mode)) no_items)))) }
{
    open_list(out)?;
    put_text(out, "all")?;
    put_text(out, mode_text(mode))?;
    close_list(out)?;
    Ok(())
}

#[tactic(auto, unfolding(crate::specs::Traced::want_data))]
pub(crate) fn put_want(out: &mut Writer, want: &Want) -> Result<(), NoMemory>
    ensures { OnOk result (AddsData out.old out.new (want_data want.now)) }
{
    match want {
        Want::Some(names, mode) => put_some(out, names.list().items(), *mode),
        Want::All(mode) => put_all(out, *mode),
    }
}

/// A start that found the state after.
fn put_after(out: &mut Writer) -> Result<(), NoMemory>
    ensures { OnOk result (AddsData out.old out.new (array (item (string (codes "found")) (item (string (codes "after")) no_items)))) }
{
    open_list(out)?;
    put_text(out, "found")?;
    put_text(out, "after")?;
    close_list(out)?;
    Ok(())
}

/// A start that found the state before, with these bytes in place.
fn put_before(alloc: Global, out: &mut Writer, bytes: &Bytes) -> Result<(), NoMemory>
    ensures { OnOk result (AddsData out.old out.new (array (item (string (codes "found")) (item (string (codes "before")) (item (string (encode_lower bytes.now)) no_items))))) }
{
    open_list(out)?;
    put_text(out, "found")?;
    put_text(out, "before")?;
    put_bytes(alloc, out, bytes)?;
    close_list(out)?;
    Ok(())
}

#[tactic(auto, unfolding(crate::specs::Traced::env_data))]
pub(crate) fn put_env(alloc: Global, out: &mut Writer, env: &Env) -> Result<(), NoMemory>
    ensures { OnOk result (AddsData out.old out.new (env_data env.now)) }
{
    match env {
        Env::Plain => put_text(out, "none"),
        Env::NoMem => put_text(out, "nomem"),
        Env::FaultRead => put_text(out, "fault-read"),
        Env::FaultWrite => put_text(out, "fault-write"),
        Env::After => put_after(out),
        Env::Before(bytes) => put_before(alloc, out, bytes),
    }
}

#[tactic(auto, unfolding(crate::specs::Traced::origin_data))]
pub(crate) fn put_origin(out: &mut Writer, origin: Origin) -> Result<(), NoMemory>
    ensures { OnOk result (AddsData out.old out.new (origin_data origin)) }
{
    match origin {
        Origin::Line(number) => put_count(out, number),
        Origin::Event => put_text(out, "event"),
        Origin::Prepare => put_text(out, "prepare"),
        Origin::Close => put_text(out, "close"),
    }
}

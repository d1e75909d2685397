ghost use Rattle.std.specs.Prelude.{OnOk};
ghost use Rattle.serde_json.specs.Data.{boolean, null, number, string, unsigned};
ghost use Rattle.st_json.specs.Adds.{AddsData, AddsKey, ClosesList, ClosesObject, OpensList, OpensObject};

use json::Writer;
use st_units::{Name, NoMemory};

#[inline]
pub fn open_object(out: &mut Writer) -> Result<(), NoMemory>
    ensures { OnOk result (OpensObject out.old out.new) }
{
    Ok(out.begin_object()?)
}

#[inline]
pub fn close_object(out: &mut Writer) -> Result<(), NoMemory>
    ensures { OnOk result (ClosesObject out.old out.new) }
{
    Ok(out.end_object()?)
}

#[inline]
pub fn open_list(out: &mut Writer) -> Result<(), NoMemory>
    ensures { OnOk result (OpensList out.old out.new) }
{
    Ok(out.begin_array()?)
}

#[inline]
pub fn close_list(out: &mut Writer) -> Result<(), NoMemory>
    ensures { OnOk result (ClosesList out.old out.new) }
{
    Ok(out.end_array()?)
}

/// The key of a member, whose value comes next.
#[inline]
pub fn put_key(out: &mut Writer, key: &str) -> Result<(), NoMemory>
    ensures { OnOk result (AddsKey out.old out.new key.now) }
{
    Ok(out.key(key)?)
}

#[inline]
pub fn put_text(out: &mut Writer, text: &str) -> Result<(), NoMemory>
    ensures { OnOk result (AddsData out.old out.new (string text.now)) }
{
    Ok(out.string(text)?)
}

#[inline]
pub fn put_name(out: &mut Writer, name: &Name) -> Result<(), NoMemory>
    ensures { OnOk result (AddsData out.old out.new (string name.now)) }
{
    Ok(out.string(name.as_str())?)
}

#[inline]
pub fn put_count(out: &mut Writer, count: u64) -> Result<(), NoMemory>
    ensures { OnOk result (AddsData out.old out.new (number (unsigned count))) }
{
    Ok(out.u64(count)?)
}

#[inline]
pub fn put_bool(out: &mut Writer, value: bool) -> Result<(), NoMemory>
    ensures { OnOk result (AddsData out.old out.new (boolean value)) }
{
    Ok(out.boolean(value)?)
}

#[inline]
pub fn put_null(out: &mut Writer) -> Result<(), NoMemory>
    ensures { OnOk result (AddsData out.old out.new null) }
{
    Ok(out.null()?)
}

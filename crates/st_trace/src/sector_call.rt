ghost use Rattle.std.specs.Prelude.{OnOk};
ghost use Rattle.st_json.specs.Adds.{AddsData};
ghost use Rattle.st_trace.specs.Calls.{fill_call, hex_call, write_data, read_call};

use json::Writer;
use st_json::{close_object, count_member, name_member, open_object, put_key, text_member};
use st_model::Payload;
use st_replies::put_bytes;
use st_units::{Bytes, Name, NoMemory};
use std::alloc::Global;

#[tactic(auto, unfolding(crate::specs::Calls::fill_call))]
fn put_fill(
    out: &mut Writer,
    pool: &Name,
    name: &Name,
    sector: u64,
    byte: u8,
    sectors: u64,
) -> Result<(), NoMemory>
    ensures { OnOk result (AddsData out.old out.new (fill_call pool.now name.now sector byte sectors)) }
{
    open_object(out)?;
    text_member(out, "call", "FsWrite")?;
    count_member(out, "fill", u64::from(byte))?;
    name_member(out, "name", name)?;
    name_member(out, "pool", pool)?;
    count_member(out, "sector", sector)?;
    count_member(out, "sectors", sectors)?;
    close_object(out)?;
    Ok(())
}

#[tactic(auto, unfolding(crate::specs::Calls::hex_call))]
fn put_hex(
    alloc: Global,
    out: &mut Writer,
    pool: &Name,
    name: &Name,
    sector: u64,
    bytes: &Bytes,
) -> Result<(), NoMemory>
    ensures { OnOk result (AddsData out.old out.new (hex_call pool.now name.now sector bytes.now)) }
{
    open_object(out)?;
    text_member(out, "call", "FsWrite")?;
    put_key(out, "hex")?;
    put_bytes(alloc, out, bytes)?;
    name_member(out, "name", name)?;
    name_member(out, "pool", pool)?;
    count_member(out, "sector", sector)?;
    close_object(out)?;
    Ok(())
}

#[tactic(auto, unfolding(crate::specs::Calls::write_data))]
pub(crate) fn put_write(
    alloc: Global,
    out: &mut Writer,
    pool: &Name,
    name: &Name,
    sector: u64,
    payload: &Payload,
) -> Result<(), NoMemory>
    ensures { OnOk result (AddsData out.old out.new (write_data pool.now name.now sector payload.now)) }
{
    match payload {
        Payload::Fill(byte, sectors) => put_fill(out, pool, name, sector, *byte, *sectors),
        Payload::Given(bytes) => put_hex(alloc, out, pool, name, sector, bytes),
    }
}

#[tactic(auto, unfolding(crate::specs::Calls::read_call))]
pub(crate) fn put_read(
    out: &mut Writer,
    pool: &Name,
    name: &Name,
    sector: u64,
    sectors: u64,
) -> Result<(), NoMemory>
    ensures { OnOk result (AddsData out.old out.new (read_call pool.now name.now sector sectors)) }
{
    open_object(out)?;
    text_member(out, "call", "FsRead")?;
    name_member(out, "name", name)?;
    name_member(out, "pool", pool)?;
    count_member(out, "sector", sector)?;
    count_member(out, "sectors", sectors)?;
    close_object(out)?;
    Ok(())
}

ghost use Rattle.std.specs.Prelude.{◌≡◌, IfOk, OnOk, string_bytes};
ghost use Rattle.st_json.specs.Adds.{AddsData};
ghost use Rattle.st_trace.specs.Calls.{bare_call, named_call, pool_call, create_call, start_call, uuid_form, start_data, rename_call, devices_call};

use json::Writer;
use st_json::{close_object, name_member, open_object, put_key, text_member};
use st_model::PoolId;
use st_report::put_paths;
use st_units::{DevList, Name, NoMemory};
use std::alloc::Global;
use uuid::Uuid;

#[tactic(auto, unfolding(crate::specs::Calls::bare_call))]
pub(crate) fn put_bare_call(out: &mut Writer, call: &str) -> Result<(), NoMemory>
    ensures { OnOk result (AddsData out.old out.new (bare_call call.now)) }
{
    open_object(out)?;
    text_member(out, "call", call)?;
    close_object(out)?;
    Ok(())
}

#[tactic(auto, unfolding(crate::specs::Calls::named_call))]
pub(crate) fn put_named_call(out: &mut Writer, call: &str, name: &Name) -> Result<(), NoMemory>
    ensures { OnOk result (AddsData out.old out.new (named_call call.now name.now)) }
{
    open_object(out)?;
    text_member(out, "call", call)?;
    name_member(out, "name", name)?;
    close_object(out)?;
    Ok(())
}

#[tactic(auto, unfolding(crate::specs::Calls::pool_call))]
pub(crate) fn put_pool_call(out: &mut Writer, call: &str, pool: &Name) -> Result<(), NoMemory>
    ensures { OnOk result (AddsData out.old out.new (pool_call call.now pool.now)) }
{
    open_object(out)?;
    text_member(out, "call", call)?;
    name_member(out, "pool", pool)?;
    close_object(out)?;
    Ok(())
}

#[tactic(auto, unfolding(crate::specs::Calls::create_call))]
pub(crate) fn put_create(out: &mut Writer, name: &Name, devices: &DevList) -> Result<(), NoMemory>
    ensures { OnOk result (AddsData out.old out.new (create_call name.now devices.now)) }
{
    open_object(out)?;
    text_member(out, "call", "CreatePool")?;
    put_key(out, "devices")?;
    put_paths(out, devices.items())?;
    name_member(out, "name", name)?;
    close_object(out)?;
    Ok(())
}

#[tactic(auto, unfolding(crate::specs::Calls::start_call))]
fn put_start_call(out: &mut Writer, id: &str, id_type: &str) -> Result<(), NoMemory>
    ensures { OnOk result (AddsData out.old out.new (start_call id.now id_type.now)) }
{
    open_object(out)?;
    text_member(out, "call", "StartPool")?;
    text_member(out, "id", id)?;
    text_member(out, "id_type", id_type)?;
    close_object(out)?;
    Ok(())
}

#[tactic(auto, unfolding(crate::specs::Calls::uuid_form))]
fn uuid_form(alloc: Global, id: u128) -> Result<String, NoMemory>
    ensures { IfOk result (λ text. string_bytes text ≡ uuid_form id) }
{
    let mut buffer = Uuid::encode_buffer();
    let id = Uuid::from_u128(id);
    let text = id.hyphenated().encode_lower(&mut buffer);
    Ok(String::from_str(alloc, text)?)
}

#[tactic(auto, unfolding(crate::specs::Calls::start_data))]
pub(crate) fn put_start(alloc: Global, out: &mut Writer, id: &PoolId) -> Result<(), NoMemory>
    ensures { OnOk result (AddsData out.old out.new (start_data id.now)) }
{
    match id {
        PoolId::ByName(name) => put_start_call(out, name.as_str(), "name"),
        PoolId::ByUuid(id) => {
            let text = uuid_form(alloc, *id)?;
            put_start_call(out, text.as_str(), "uuid")
        }
    }
}

#[tactic(auto, unfolding(crate::specs::Calls::rename_call))]
pub(crate) fn put_rename(out: &mut Writer, name: &Name, new: &Name) -> Result<(), NoMemory>
    ensures { OnOk result (AddsData out.old out.new (rename_call name.now new.now)) }
{
    open_object(out)?;
    text_member(out, "call", "RenamePool")?;
    name_member(out, "name", name)?;
    name_member(out, "new", new)?;
    close_object(out)?;
    Ok(())
}

#[tactic(auto, unfolding(crate::specs::Calls::devices_call))]
pub(crate) fn put_devices_call(
    out: &mut Writer,
    call: &str,
    pool: &Name,
    devices: &DevList,
) -> Result<(), NoMemory>
    ensures { OnOk result (AddsData out.old out.new (devices_call call.now pool.now devices.now)) }
{
    open_object(out)?;
    text_member(out, "call", call)?;
    put_key(out, "devices")?;
    put_paths(out, devices.items())?;
    name_member(out, "pool", pool)?;
    close_object(out)?;
    Ok(())
}

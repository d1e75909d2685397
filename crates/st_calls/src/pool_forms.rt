ghost use Rattle.std.specs.Prelude.{◌≡◌, Some, IfOk, IfErr, option_map, option_copied};
ghost use Rattle.st_calls.specs.inner.View.{view};
ghost use Rattle.st_calls.specs.Gives.{Gives};
ghost use Rattle.st_calls.specs.PoolForms.{pool_at, own_name_at, create_pool, destroy_pool, stop_pool, is_uuid_word, is_uuid_told, id_type, uuid_of, id_of, start_pool, rename_pool, devices_call, pool_call, pools_at, pool_reports};
ghost use Rattle.st_calls.specs.Members.{paths_at};
ghost use Rattle.st_model.specs.Sound.{are_few};
ghost use Rattle.st_model.specs.declared.call.Call.TheVariants as calls;

use crate::fault::LineFault;
use crate::members::{name_at, names_at, paths_at, text_at};
use crate::value::{as_text, get};
use json::Value;
use st_model::{Call, PoolId};
use st_units::{DevList, Member, Name, NameList};
use st_wants::{Names, NamesFault};
use std::alloc::Global;
use uuid::Uuid;

/// The one pool that most calls are on.
pub(crate) fn pool_at(alloc: Global, value: &Value<'_>) -> Result<Name, LineFault>
    ensures { Gives (λ name. name) result (pool_at (view value.now)) }
{
    name_at(alloc, value, "pool", Member::Pool)
}

pub(crate) fn own_name_at(alloc: Global, value: &Value<'_>) -> Result<Name, LineFault>
    ensures { Gives (λ name. name) result (own_name_at (view value.now)) }
{
    name_at(alloc, value, "name", Member::Name)
}

#[tactic(auto, unfolding(crate::specs::PoolForms::create_pool))]
pub(crate) fn create_pool(alloc: Global, value: &Value<'_>) -> Result<Call, LineFault>
    ensures { Gives (λ call. call) result (create_pool (view value.now)) }
{
    let name = own_name_at(alloc, value)?;
    let devices = paths_at(alloc, value, "devices")?;
    Ok(Call::CreatePool { name, devices })
}

#[tactic(auto, unfolding(crate::specs::PoolForms::destroy_pool))]
pub(crate) fn destroy_pool(alloc: Global, value: &Value<'_>) -> Result<Call, LineFault>
    ensures { Gives (λ call. call) result (destroy_pool (view value.now)) }
{
    let name = own_name_at(alloc, value)?;
    Ok(Call::DestroyPool { name })
}

#[tactic(auto, unfolding(crate::specs::PoolForms::stop_pool))]
pub(crate) fn stop_pool(alloc: Global, value: &Value<'_>) -> Result<Call, LineFault>
    ensures { Gives (λ call. call) result (stop_pool (view value.now)) }
{
    let name = own_name_at(alloc, value)?;
    Ok(Call::StopPool { name })
}

fn is_uuid_word(word: &str) -> Result<bool, LineFault>
    ensures { Gives (λ told. told) result (is_uuid_word word.now) }
{
    match word {
        "name" => Ok(false),
        "uuid" => Ok(true),
        _ => Err(LineFault::BadCall(Member::IdType)),
    }
}

fn is_uuid_told(id_type: Option<&Value<'_>>) -> Result<bool, LineFault>
    ensures { Gives (λ told. told) result (is_uuid_told (option_map view (option_copied id_type.entry))) }
{
    let Some(value) = id_type else {
        return Ok(false);
    };
    match as_text(value) {
        Some(word) => is_uuid_word(word),
        None => Err(LineFault::BadCall(Member::IdType)),
    }
}

/// Whether the id is a UUID.
#[tactic(auto, unfolding(crate::specs::PoolForms::id_type))]
fn id_type(value: &Value<'_>) -> Result<bool, LineFault>
    ensures { Gives (λ told. told) result (id_type (view value.now)) }
{
    is_uuid_told(get(value, "id_type"))
}

fn uuid_of(text: &str) -> Result<PoolId, LineFault>
    ensures { Gives (λ id. id) result (uuid_of text.now) }
{
    match Uuid::try_parse(text) {
        Ok(uuid) => Ok(PoolId::ByUuid(uuid.as_u128())),
        Err(_) => Err(LineFault::BadCall(Member::Id)),
    }
}

fn id_of(alloc: Global, is_uuid: bool, value: &Value<'_>) -> Result<PoolId, LineFault>
    ensures { Gives (λ id. id) result (id_of is_uuid (view value.now)) }
{
    if is_uuid {
        return uuid_of(text_at(value, "id", Member::Id)?);
    }
    let name = name_at(alloc, value, "id", Member::Id)?;
    Ok(PoolId::ByName(name))
}

#[tactic(auto, unfolding(crate::specs::PoolForms::start_pool))]
pub(crate) fn start_pool(alloc: Global, value: &Value<'_>) -> Result<Call, LineFault>
    ensures { Gives (λ call. call) result (start_pool (view value.now)) }
{
    let is_uuid = id_type(value)?;
    let id = id_of(alloc, is_uuid, value)?;
    Ok(Call::StartPool { id })
}

#[tactic(auto, unfolding(crate::specs::PoolForms::rename_pool))]
pub(crate) fn rename_pool(alloc: Global, value: &Value<'_>) -> Result<Call, LineFault>
    ensures { Gives (λ call. call) result (rename_pool (view value.now)) }
{
    let name = own_name_at(alloc, value)?;
    let new = name_at(alloc, value, "new", Member::New)?;
    Ok(Call::RenamePool { name, new })
}

#[tactic(auto, unfolding(crate::specs::PoolForms::devices_call))]
pub(crate) fn add_data_devs(alloc: Global, value: &Value<'_>) -> Result<Call, LineFault>
    ensures { Gives (λ call. call) result (devices_call calls.AddDataDevs (view value.now)) }
{
    let pool = pool_at(alloc, value)?;
    let devices = paths_at(alloc, value, "devices")?;
    Ok(Call::AddDataDevs { pool, devices })
}

#[tactic(auto, unfolding(crate::specs::PoolForms::devices_call))]
pub(crate) fn init_cache(alloc: Global, value: &Value<'_>) -> Result<Call, LineFault>
    ensures { Gives (λ call. call) result (devices_call calls.InitCache (view value.now)) }
{
    let pool = pool_at(alloc, value)?;
    let devices = paths_at(alloc, value, "devices")?;
    Ok(Call::InitCache { pool, devices })
}

#[tactic(auto, unfolding(crate::specs::PoolForms::devices_call))]
pub(crate) fn add_cache_devs(alloc: Global, value: &Value<'_>) -> Result<Call, LineFault>
    ensures { Gives (λ call. call) result (devices_call calls.AddCacheDevs (view value.now)) }
{
    let pool = pool_at(alloc, value)?;
    let devices = paths_at(alloc, value, "devices")?;
    Ok(Call::AddCacheDevs { pool, devices })
}

#[tactic(auto, unfolding(crate::specs::PoolForms::pool_call))]
pub(crate) fn check(alloc: Global, value: &Value<'_>) -> Result<Call, LineFault>
    ensures { Gives (λ call. call) result (pool_call calls.Check (view value.now)) }
{
    let pool = pool_at(alloc, value)?;
    Ok(Call::Check { pool })
}

#[tactic(auto, unfolding(crate::specs::PoolForms::pool_call))]
pub(crate) fn pool_report(alloc: Global, value: &Value<'_>) -> Result<Call, LineFault>
    ensures { Gives (λ call. call) result (pool_call calls.PoolReport (view value.now)) }
{
    let pool = pool_at(alloc, value)?;
    Ok(Call::PoolReport { pool })
}

/// Whether the distinct names are 1 to 8.
fn are_few(pools: &NameList) -> Result<bool, LineFault>
    ensures few { IfOk result (λ few. few ≡ are_few pools.now) }
    ensures memory { IfErr result (λ fault. fault ≡ LineFault.OutOfMemory) }
{
    match Names::read(pools) {
        Ok(_) => Ok(true),
        Err(NamesFault::BadCount) => Ok(false),
        Err(NamesFault::OutOfMemory) => Err(LineFault::OutOfMemory),
    }
}

#[tactic(auto, unfolding(crate::specs::PoolForms::pools_at))]
fn pools_at(alloc: Global, value: &Value<'_>) -> Result<NameList, LineFault>
    ensures { Gives (λ pools. pools) result (pools_at (view value.now)) }
{
    let pools = names_at(alloc, value, "pools", Member::Pools)?;
    if are_few(&pools)? {
        Ok(pools)
    } else {
        Err(LineFault::BadCall(Member::Pools))
    }
}

#[tactic(auto, unfolding(crate::specs::PoolForms::pool_reports))]
pub(crate) fn pool_reports(alloc: Global, value: &Value<'_>) -> Result<Call, LineFault>
    ensures { Gives (λ call. call) result (pool_reports (view value.now)) }
{
    let pools = pools_at(alloc, value)?;
    Ok(Call::PoolReports { pools })
}

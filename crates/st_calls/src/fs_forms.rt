ghost use Rattle.std.specs.Prelude.{◌≡◌};
ghost use Rattle.st_calls.specs.inner.View.{view, items_view};
ghost use Rattle.st_calls.specs.Gives.{Gives};
ghost use Rattle.st_calls.specs.Members.{each};
ghost use Rattle.st_calls.specs.FsForms.{fs_spec, fs_specs_at, create_filesystems, destroy_filesystems, snapshot_filesystem, rename_filesystem, set_size_limit, set_fs_limit, set_overprovisioning, set_merge};

use crate::fault::LineFault;
use crate::members::{flag_at, items_at, name_at, names_at, number_at, optional_number_at};
use crate::pool_forms::{own_name_at, pool_at};
use json::Value;
use st_model::Call;
use st_units::{FsSpec, FsSpecList, Member};
use std::alloc::Global;

/// A filesystem that is to be created; what is faulty in it is told of the list.
#[tactic(auto, unfolding(crate::specs::FsForms::fs_spec))]
fn fs_spec(alloc: Global, value: &Value<'_>) -> Result<FsSpec, LineFault>
    ensures { Gives (λ spec. spec) result (fs_spec (view value.now)) }
{
    let name = name_at(alloc, value, "name", Member::Filesystems)?;
    let size = optional_number_at(value, "size", Member::Filesystems)?;
    let limit = optional_number_at(value, "limit", Member::Filesystems)?;
    Ok(FsSpec { name, size, limit })
}

fn fs_specs_of(alloc: Global, values: &[Value<'_>]) -> Result<FsSpecList, LineFault>
    ensures { Gives (λ specs. specs) result (each fs_spec (items_view values.now)) }
{
    let mut list = FsSpecList::make(alloc);
    for value in values {
        let spec = fs_spec(alloc, value)?;
        if list.push(spec).is_err() {
            return Err(LineFault::OutOfMemory);
        }
    }
    Ok(list)
}

#[tactic(auto, unfolding(crate::specs::FsForms::fs_specs_at))]
fn fs_specs_at(alloc: Global, value: &Value<'_>) -> Result<FsSpecList, LineFault>
    ensures { Gives (λ specs. specs) result (fs_specs_at (view value.now)) }
{
    fs_specs_of(alloc, items_at(value, "filesystems", Member::Filesystems)?)
}

#[tactic(auto, unfolding(crate::specs::FsForms::create_filesystems))]
pub(crate) fn create_filesystems(alloc: Global, value: &Value<'_>) -> Result<Call, LineFault>
    ensures { Gives (λ call. call) result (create_filesystems (view value.now)) }
{
    let pool = pool_at(alloc, value)?;
    let filesystems = fs_specs_at(alloc, value)?;
    Ok(Call::CreateFilesystems { pool, filesystems })
}

#[tactic(auto, unfolding(crate::specs::FsForms::destroy_filesystems))]
pub(crate) fn destroy_filesystems(alloc: Global, value: &Value<'_>) -> Result<Call, LineFault>
    ensures { Gives (λ call. call) result (destroy_filesystems (view value.now)) }
{
    let pool = pool_at(alloc, value)?;
    let names = names_at(alloc, value, "names", Member::Names)?;
    Ok(Call::DestroyFilesystems { pool, names })
}

#[tactic(auto, unfolding(crate::specs::FsForms::snapshot_filesystem))]
pub(crate) fn snapshot_filesystem(alloc: Global, value: &Value<'_>) -> Result<Call, LineFault>
    ensures { Gives (λ call. call) result (snapshot_filesystem (view value.now)) }
{
    let pool = pool_at(alloc, value)?;
    let origin = name_at(alloc, value, "origin", Member::Origin)?;
    let name = own_name_at(alloc, value)?;
    Ok(Call::SnapshotFilesystem { pool, origin, name })
}

#[tactic(auto, unfolding(crate::specs::FsForms::rename_filesystem))]
pub(crate) fn rename_filesystem(alloc: Global, value: &Value<'_>) -> Result<Call, LineFault>
    ensures { Gives (λ call. call) result (rename_filesystem (view value.now)) }
{
    let pool = pool_at(alloc, value)?;
    let name = own_name_at(alloc, value)?;
    let new = name_at(alloc, value, "new", Member::New)?;
    Ok(Call::RenameFilesystem { pool, name, new })
}

#[tactic(auto, unfolding(crate::specs::FsForms::set_size_limit))]
pub(crate) fn set_size_limit(alloc: Global, value: &Value<'_>) -> Result<Call, LineFault>
    ensures { Gives (λ call. call) result (set_size_limit (view value.now)) }
{
    let pool = pool_at(alloc, value)?;
    let name = own_name_at(alloc, value)?;
    let limit = optional_number_at(value, "limit", Member::Limit)?;
    Ok(Call::SetSizeLimit { pool, name, limit })
}

#[tactic(auto, unfolding(crate::specs::FsForms::set_fs_limit))]
pub(crate) fn set_fs_limit(alloc: Global, value: &Value<'_>) -> Result<Call, LineFault>
    ensures { Gives (λ call. call) result (set_fs_limit (view value.now)) }
{
    let pool = pool_at(alloc, value)?;
    let limit = number_at(value, "limit", Member::Limit)?;
    Ok(Call::SetFsLimit { pool, limit })
}

#[tactic(auto, unfolding(crate::specs::FsForms::set_overprovisioning))]
pub(crate) fn set_overprovisioning(alloc: Global, value: &Value<'_>) -> Result<Call, LineFault>
    ensures { Gives (λ call. call) result (set_overprovisioning (view value.now)) }
{
    let pool = pool_at(alloc, value)?;
    let value = flag_at(value, "value", Member::Value)?;
    Ok(Call::SetOverprovisioning { pool, value })
}

#[tactic(auto, unfolding(crate::specs::FsForms::set_merge))]
pub(crate) fn set_merge(alloc: Global, value: &Value<'_>) -> Result<Call, LineFault>
    ensures { Gives (λ call. call) result (set_merge (view value.now)) }
{
    let pool = pool_at(alloc, value)?;
    let name = own_name_at(alloc, value)?;
    let value = flag_at(value, "value", Member::Value)?;
    Ok(Call::SetMerge { pool, name, value })
}

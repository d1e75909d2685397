ghost use Rattle.std.specs.Prelude.{◌≡◌, ◌≤◌, ◌<◌, ◌+◌, ◌*◌, ◌^◌, ◌∷◌, length, map, IfOk};
ghost use Rattle.std.specs.List.{AllByRecursion};
ghost use Rattle.st_units.specs.declared.rows.FsSpec.{FsSpec};
ghost use Rattle.st_model.specs.steps.CreateFilesystems.{distinct_specs, new_filesystems, new_fs, size_of};
ghost use Rattle.st_filesystems.specs.inner.Creating.{outside, others, spec_blocks};

use crate::find::fs_at;
use st_limits::{BLOCK_SECTORS, DEFAULT_FS_SECTORS};
use st_model::{FsState, Identity, NewFs, NumberMap};
use st_units::{FsRow, FsSpec, FsSpecList, ItemList, NoMemory, PoolSerial};
use std::alloc::Global;

fn spec_copy(spec: &FsSpec) -> Result<FsSpec, NoMemory>
    ensures { IfOk result (λ copy. copy ≡ spec.now) }
{
    Ok(FsSpec {
        name: spec.name.copy()?,
        size: spec.size,
        limit: spec.limit,
    })
}

/// This one, and behind it those of other names.
fn with_others(alloc: Global, first: &FsSpec, specs: &[FsSpec]) -> Result<FsSpecList, NoMemory>
    ensures { IfOk result (λ list. list ≡ first.now ∷ others first.now.name specs.now) }
{
    let mut list = FsSpecList::make(alloc);
    list.push(spec_copy(first)?)?;
    for spec in specs {
        if first.name.bytes() != spec.name.bytes() {
            list.push(spec_copy(spec)?)?;
        }
    }
    Ok(list)
}

/// Each name once, at its first place.
fn distinct_specs(alloc: Global, specs: &[FsSpec]) -> Result<FsSpecList, NoMemory>
    ensures { IfOk result (λ list. list ≡ distinct_specs specs.now) }
{
    let [first, later @ ..] = specs else {
        return Ok(FsSpecList::make(alloc));
    };
    with_others(alloc, first, distinct_specs(alloc, later)?.items())
}

/// Those whose names no filesystem has.
fn outside(alloc: Global, specs: &[FsSpec], filesystems: &[FsState]) -> Result<FsSpecList, NoMemory>
    ensures { IfOk result (λ list. list ≡ outside filesystems.now specs.now) }
{
    let mut list = FsSpecList::make(alloc);
    for spec in specs {
        if fs_at(filesystems, &spec.name).is_none() {
            list.push(spec_copy(spec)?)?;
        }
    }
    Ok(list)
}

/// Those that aren't there yet, each name once.
pub(crate) fn to_create(
    alloc: Global,
    specs: &[FsSpec],
    filesystems: &[FsState],
) -> Result<FsSpecList, NoMemory>
    ensures { IfOk result (λ list. list ≡ outside filesystems.now (distinct_specs specs.now)) }
{
    outside(alloc, distinct_specs(alloc, specs)?.items(), filesystems)
}

pub(crate) fn size_of(spec: &FsSpec) -> u64
    ensures { result ≡ size_of spec.now }
{
    match spec.size {
        Some(size) => size,
        None => DEFAULT_FS_SECTORS,
    }
}

/// The sizes of all that are to be created, in blocks.
pub(crate) fn spec_blocks(specs: &[FsSpec]) -> u64
    requires few { length specs.now ≤ 2 ^ 16 }
    requires small { AllByRecursion (λ (spec : FsSpec). size_of spec ≤ 2 ^ 32) specs.now }
    ensures sum { result ≡ spec_blocks specs.now }
    ensures bound { result ≤ length specs.now * 2 ^ 32 }
{
    let mut sum = 0;
    for spec in specs {
        sum += size_of(spec) / BLOCK_SECTORS;
    }
    sum
}

/// The filesystems that are made, the first with this serial.
pub(crate) fn new_filesystems(
    alloc: Global,
    serial: u64,
    specs: &[FsSpec],
) -> Result<ItemList<FsState>, NoMemory>
    requires { serial + length specs.now < 2 ^ 64 }
    ensures { IfOk result (λ list. list ≡ new_filesystems serial specs.now) }
{
    let mut list = ItemList::make(alloc);
    let mut next = serial;
    for spec in specs {
        list.push(FsState {
            row: FsRow {
                serial: next,
                name: spec.name.copy()?,
                size: size_of(spec),
                limit: spec.limit,
                origin: None,
                merge: false,
            },
            map: NumberMap::make(alloc),
        })?;
        next += 1;
    }
    Ok(list)
}

/// What the reply tells of them.
pub(crate) fn new_of(
    alloc: Global,
    pool: PoolSerial,
    filesystems: &[FsState],
) -> Result<ItemList<NewFs>, NoMemory>
    ensures { IfOk result (λ list. list ≡ map (new_fs pool) filesystems.now) }
{
    let mut list = ItemList::make(alloc);
    for fs in filesystems {
        list.push(NewFs {
            name: fs.row.name.copy()?,
            identity: Identity::Filesystem(pool, fs.row.serial),
        })?;
    }
    Ok(list)
}

ghost use Rattle.std.specs.Prelude.{◌≡◌, IfOk};
ghost use Rattle.std.specs.List.{list_any};
ghost use Rattle.st_model.specs.steps.DestroyFilesystems.{goes, handed_on, left_by, next_on_line, origin_goes, remaining};

use crate::names::has_name;
use st_copies::fs_copy;
use st_merges::is_origin;
use st_model::FsState;
use st_units::{ItemList, Name, NoMemory};
use std::alloc::Global;

fn goes(names: &[Name], fs: &FsState) -> bool
    ensures { result ≡ goes names.now fs.now }
{
    has_name(names, &fs.row.name)
}

/// Whether the origin is a filesystem that goes.
fn origin_goes(names: &[Name], filesystems: &[FsState], origin: Option<u64>) -> bool
    ensures { result ≡ origin_goes names.now filesystems.now origin }
{
    filesystems
        .iter()
        .any(|fs| goes(names, fs) && is_origin(fs.row.serial, origin))
}

/// One that goes hands its own origin on to those that had it as theirs.
fn handed_on(names: &[Name], fs: &FsState, origin: Option<u64>) -> Option<u64>
    ensures { result ≡ handed_on names.now fs.now origin }
{
    if goes(names, fs) && is_origin(fs.row.serial, origin) {
        fs.row.origin
    } else {
        origin
    }
}

/// The first filesystem that stays on the line of origins, from this origin on, or none: an origin
/// is older than what has it, so the younger ones are asked first.
fn next_on_line(names: &[Name], filesystems: &[FsState], origin: Option<u64>) -> Option<u64>
    ensures { result ≡ next_on_line names.now filesystems.now origin }
{
    let [fs, younger @ ..] = filesystems else {
        return origin;
    };
    handed_on(names, fs, next_on_line(names, younger, origin))
}

/// A filesystem that stays; where its origin goes, it takes the next on the line, and its mark is
/// cleared.
fn left_by(names: &[Name], filesystems: &[FsState], fs: &FsState) -> Result<FsState, NoMemory>
    ensures { IfOk result (λ left. left ≡ left_by names.now filesystems.now fs.now) }
{
    let mut left = fs_copy(fs)?;
    if origin_goes(names, filesystems, fs.row.origin) {
        left.row.origin = next_on_line(names, filesystems, fs.row.origin);
        left.row.merge = false;
    }
    Ok(left)
}

/// The filesystems that stay, as they are then.
pub(crate) fn remaining(
    alloc: Global,
    names: &[Name],
    filesystems: &[FsState],
) -> Result<ItemList<FsState>, NoMemory>
    ensures { IfOk result (λ list. list ≡ remaining names.now filesystems.now) }
{
    let mut list = ItemList::make(alloc);
    for fs in filesystems {
        if !goes(names, fs) {
            list.push(left_by(names, filesystems, fs)?)?;
        }
    }
    Ok(list)
}

ghost use Rattle.std.specs.Prelude.{◌≡◌, ◌<◌, Bool, true, length, IfOk};
ghost use Rattle.std.specs.Bool.{Decides};
ghost use Rattle.st_flexrec.specs.Conditions.{most_filesystems, has_few_rows, counts_from_one, KeepsConditions, is_within};

use crate::cells::cells_fit;
use crate::filesystems::filesystems_fit;
use crate::mappings::mappings_fit;
use crate::merges::marks_fit;
use crate::record::FlexRec;
use st_limits::{MAX_FILESYSTEMS, MAX_FILESYSTEMS_V1, MAX_MAPPINGS};
use st_units::NoMemory;
use std::alloc::Global;

/// The most filesystems of a pool, and the most serials of them that a commit takes.
fn most_filesystems(version2: bool) -> u64
    ensures { result ≡ most_filesystems version2 }
{
    if version2 {
        MAX_FILESYSTEMS
    } else {
        MAX_FILESYSTEMS_V1
    }
}

/// How many cell numbers a commit takes at most.
const CELLS_OF_COMMIT: u64 = 2;

/// Whether the record keeps all conditions that don't speak of the generation.
pub fn keeps_conditions(alloc: Global, rec: &FlexRec) -> Result<bool, NoMemory>
    ensures { IfOk result (λ kept. Decides kept (KeepsConditions rec.now)) }
{
    if !(has_few_rows(rec) && counts_from_one(rec)) {
        return Ok(false);
    }
    let filesystems = rec.filesystems.items();
    let mappings = rec.mappings.items();
    if !filesystems_fit(rec.next_fs, filesystems) || !marks_fit(rec.version2, filesystems) {
        return Ok(false);
    }
    if !mappings_fit(filesystems, rec.cells.len(), mappings) {
        return Ok(false);
    }
    cells_fit(alloc, rec.next_cell, mappings, rec.cells.items())
}

fn has_few_rows(rec: &FlexRec) -> bool
    ensures { result ≡ has_few_rows rec.now }
{
    rec.filesystems.len() as u64 <= most_filesystems(rec.version2)
        && rec.mappings.len() as u64 <= MAX_MAPPINGS
        && rec.cells.len() as u64 <= MAX_MAPPINGS
}

fn counts_from_one(rec: &FlexRec) -> bool
    ensures { result ≡ counts_from_one rec.now }
{
    1 <= rec.next_fs && 1 <= rec.next_cell
}

/// Whether a commit of this generation can have made the record.
pub fn is_within(generation: u64, rec: &FlexRec) -> bool
    ensures { result ≡ is_within generation rec.now }
{
    rec.next_cell <= generation.saturating_mul(CELLS_OF_COMMIT)
        && rec.next_fs <= generation.saturating_mul(most_filesystems(rec.version2))
}

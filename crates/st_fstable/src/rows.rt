ghost use Rattle.std.specs.Prelude.{◌≡◌, ◌<◌, length, map, remove, slice_set, slice_index_or, true, false, Some, IfOk, IfErr};
ghost use Rattle.st_units.specs.declared.rows.FsRow.{FsRow};
ghost use Rattle.st_model.specs.Merged.{is_origin};
ghost use Rattle.st_fstable.specs.Rows.{AreRows, row_at, is_there, without, changed, passed_on};

use st_units::{FsRow, NoMemory};
use std::alloc::Global;

/// The place of the filesystem of this serial, by halving.
pub(crate) fn search_serial(rows: &[FsRow], serial: u64) -> Result<usize, usize>
    requires { AreRows rows.now }
    ensures within { IfOk result (λ i. i < length rows.now) }
    ensures found { IfOk result (λ i. (d : FsRow) → row_at serial rows.now ≡ Some (slice_index_or rows.now i d)) }
    ensures others { IfOk result (λ i. remove rows.now i ≡ without serial rows.now) }
    ensures changed { IfOk result (λ i. (change : FsRow → FsRow) (d : FsRow) → slice_set rows.now i (change (slice_index_or rows.now i d)) ≡ changed change serial rows.now) }
    ensures absent { IfErr result (λ _. is_there serial rows.now ≡ false) }
{
    rows.binary_search_by(|row| row.serial.cmp(&serial))
}

/// The place of a filesystem that is there.
pub(crate) fn place_of(rows: &[FsRow], serial: u64) -> usize
    requires rows { AreRows rows.now }
    requires there { is_there serial rows.now ≡ true }
    ensures within { result < length rows.now }
    ensures found { (d : FsRow) → row_at serial rows.now ≡ Some (slice_index_or rows.now result d) }
    ensures changed { (change : FsRow → FsRow) (d : FsRow) → slice_set rows.now result (change (slice_index_or rows.now result d)) ≡ changed change serial rows.now }
{
    match search_serial(rows, serial) {
        Ok(i) => i,
        Err(_) => unreachable!(),
    }
}

fn is_origin(serial: u64, origin: Option<u64>) -> bool
    ensures { result ≡ is_origin serial origin }
{
    match origin {
        Some(origin) => origin == serial,
        None => false,
    }
}

fn pass_on_row(row: &mut FsRow, gone: &FsRow)
    ensures { row.new ≡ passed_on gone.now row.old }
{
    if is_origin(gone.serial, row.origin) {
        row.origin = gone.origin;
        row.merge = false;
    }
}

/// Where its origin goes, a filesystem gets the origin of the one that goes, and is no longer marked.
pub(crate) fn pass_on(rows: &mut Vec<FsRow>, gone: &FsRow)
    ensures { rows.new.items ≡ map (passed_on gone.now) rows.old.items }
{
    for row in rows.iter_mut() {
        pass_on_row(row, gone);
    }
}

pub(crate) fn copy_rows(alloc: Global, rows: &[FsRow]) -> Result<Vec<FsRow>, NoMemory>
    ensures { IfOk result (λ copy. copy.items ≡ rows.now) }
{
    let mut copy = Vec::new(alloc);
    for row in rows {
        copy.push(row.copy()?)?;
    }
    Ok(copy)
}

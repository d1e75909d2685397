ghost use Rattle.std.specs.Prelude.{◌≡◌, ◌≤◌, Bool, true, length};
ghost use Rattle.std.specs.Bool.{Decides};
ghost use Rattle.std.specs.List.{list_all, list_any};
ghost use Rattle.st_flexrec.specs.Filesystems.{has_lower_serial, is_size, is_limit, is_fs_row, has_serial, is_origin_in, HaveEarlierOrigins, has_other_name, have_own_names, FilesystemsFit};
ghost use Rattle.st_flexrec.specs.OrderLaws.{serials_go_on};

use crate::order::{InOrder, rises};
use st_limits::{BLOCK_SECTORS, MAX_FS_SECTORS};
use st_units::FsRow;

impl InOrder for FsRow {
    ghost comes_before = { has_lower_serial };

    ghost goes_on = { serials_go_on };

    fn is_before(&self, later: &FsRow) -> bool {
        self.serial < later.serial
    }
}

/// Whether the rows keep their conditions, where this is the next serial.
pub fn filesystems_fit(next: u64, rows: &[FsRow]) -> bool
    requires { length rows.now ≤ 256 }
    ensures { Decides result (FilesystemsFit next rows.now) }
{
    rises(rows) && each_fits(next, rows) && have_earlier_origins(rows) && have_own_names(rows)
}

fn each_fits(next: u64, rows: &[FsRow]) -> bool
    ensures { result ≡ list_all (is_fs_row next) rows.now }
{
    rows.iter().all(|row| is_fs_row(next, row))
}

fn is_fs_row(next: u64, row: &FsRow) -> bool
    ensures { result ≡ is_fs_row next row.now }
{
    1 <= row.serial && row.serial < next && is_size(row.size) && is_limit(row.size, row.limit)
}

fn is_size(sectors: u64) -> bool
    ensures { result ≡ is_size sectors }
{
    sectors % BLOCK_SECTORS == 0 && BLOCK_SECTORS <= sectors && sectors <= MAX_FS_SECTORS
}

fn is_limit(size: u64, limit: Option<u64>) -> bool
    ensures { result ≡ is_limit size limit }
{
    match limit {
        None => true,
        Some(limit) => is_size(limit) && size <= limit,
    }
}

fn have_earlier_origins(rows: &[FsRow]) -> bool
    ensures { Decides result (HaveEarlierOrigins rows.now) }
{
    for i in 0..rows.len() {
        if !is_origin_in(&rows[..i], rows[i].origin) {
            return false;
        }
    }
    true
}

fn is_origin_in(rows: &[FsRow], origin: Option<u64>) -> bool
    ensures { result ≡ is_origin_in rows.now origin }
{
    match origin {
        None => true,
        Some(serial) => have_serial(serial, rows),
    }
}

fn have_serial(serial: u64, rows: &[FsRow]) -> bool
    ensures { result ≡ list_any (has_serial serial) rows.now }
{
    rows.iter().any(|row| has_serial(serial, row))
}

fn has_serial(serial: u64, row: &FsRow) -> bool
    ensures { result ≡ has_serial serial row.now }
{
    row.serial == serial
}

fn has_other_name(row: &FsRow, other: &FsRow) -> bool
    ensures { result ≡ has_other_name row.now other.now }
{
    other.name.bytes() != row.name.bytes()
}

fn have_other_names(row: &FsRow, others: &[FsRow]) -> bool
    ensures { result ≡ list_all (has_other_name row.now) others.now }
{
    others.iter().all(|other| has_other_name(row, other))
}

/// At most 256 rows are compared with each other.
fn have_own_names(rows: &[FsRow]) -> bool
    ensures { result ≡ have_own_names rows.now }
{
    match rows {
        [] => true,
        [row, others @ ..] => have_other_names(row, others) && have_own_names(others),
    }
}

ghost use Rattle.std.specs.Prelude.{◌≡◌};
ghost use Rattle.std.specs.List.{list_all, list_any};
ghost use Rattle.st_flexrec.specs.Merges.{is_unmarked, is_unmarked_at, is_unmarked_origin, may_merge, is_one_origin, merges_apart, merge_apart, marks_fit};

use st_units::FsRow;

/// Whether the marks for a merge keep their conditions.
pub fn marks_fit(version2: bool, rows: &[FsRow]) -> bool
    ensures { result ≡ marks_fit version2 rows.now }
{
    if version2 {
        each_may_merge(rows) && merge_apart(rows)
    } else {
        are_unmarked(rows)
    }
}

fn are_unmarked(rows: &[FsRow]) -> bool
    ensures { result ≡ list_all is_unmarked rows.now }
{
    rows.iter().all(|row| !row.merge)
}

fn each_may_merge(rows: &[FsRow]) -> bool
    ensures { result ≡ list_all (may_merge rows.now) rows.now }
{
    rows.iter().all(|row| may_merge(rows, row))
}

fn may_merge(rows: &[FsRow], row: &FsRow) -> bool
    ensures { result ≡ may_merge rows.now row.now }
{
    !row.merge || is_unmarked_origin(rows, row.origin)
}

fn is_unmarked_origin(rows: &[FsRow], origin: Option<u64>) -> bool
    ensures { result ≡ is_unmarked_origin rows.now origin }
{
    match origin {
        None => false,
        Some(serial) => have_unmarked(rows, serial),
    }
}

fn have_unmarked(rows: &[FsRow], serial: u64) -> bool
    ensures { result ≡ list_any (is_unmarked_at serial) rows.now }
{
    rows.iter().any(|row| is_unmarked_at(serial, row))
}

fn is_unmarked_at(serial: u64, row: &FsRow) -> bool
    ensures { result ≡ is_unmarked_at serial row.now }
{
    row.serial == serial && !row.merge
}

fn is_one_origin(origin: Option<u64>, other: Option<u64>) -> bool
    ensures { result ≡ is_one_origin origin other }
{
    match (origin, other) {
        (Some(serial), Some(other)) => serial == other,
        _ => false,
    }
}

fn merges_apart(row: &FsRow, other: &FsRow) -> bool
    ensures { result ≡ merges_apart row.now other.now }
{
    !(row.merge && other.merge && is_one_origin(row.origin, other.origin))
}

fn all_merge_apart(row: &FsRow, others: &[FsRow]) -> bool
    ensures { result ≡ list_all (merges_apart row.now) others.now }
{
    others.iter().all(|other| merges_apart(row, other))
}

/// At most 256 rows are compared with each other.
fn merge_apart(rows: &[FsRow]) -> bool
    ensures { result ≡ merge_apart rows.now }
{
    match rows {
        [] => true,
        [row, others @ ..] => all_merge_apart(row, others) && merge_apart(others),
    }
}

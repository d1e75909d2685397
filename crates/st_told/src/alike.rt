ghost use Rattle.std.specs.Prelude.{◌≡◌, [], ◌∷◌, IsTrue, ◌↔◌};
ghost use Rattle.std.specs.List.{AllByRecursion};
ghost use Rattle.st_units.specs.declared.rows.DevRow.{DevRow};
ghost use Rattle.st_units.specs.declared.rows.Tier.TheVariants.{DataTier};
ghost use Rattle.st_told.specs.Told.{AreFirst, AreLike, IsLike, GoesOn, first_segment};

use st_books::Books;
use st_flexlog::FlexState;
use st_limits::{DEFAULT_FS_LIMIT, FIRST_ALLOCATION, FLEX_BLOCKS};
use st_poolrec::PoolRec;
use st_units::{DevRow, DevRows, Name, SegList, Segment, Tier};

/// Whether books say what others say, but with this name and generation. Versions are not looked at, nor which commits were made since.
pub fn are_like(books: &Books, others: &Books, name: &Name, generation: u64) -> bool
    ensures { IsTrue result ↔ AreLike name.now generation others.now books.now }
{
    books.generation == generation
        && is_like(&books.rec, &others.rec, name)
        && goes_on(&books.flex, &others.flex)
}

/// Whether a record says what another says, but with this name.
fn is_like(rec: &PoolRec, other: &PoolRec, name: &Name) -> bool
    ensures { IsTrue result ↔ IsLike name.now other.now rec.now }
{
    rec.serial == other.serial
        && is_same(rec.overprovisioning, other.overprovisioning)
        && rec.fs_limit == other.fs_limit
        && rec.name.bytes() == name.bytes()
        && same_rows(&rec.devs, &other.devs)
        && same_segments(&rec.segments, &other.segments)
}

/// Whether a log gives the same next numbers as another.
fn goes_on(flex: &FlexState, other: &FlexState) -> bool
    ensures { IsTrue result ↔ GoesOn other.now flex.now }
{
    flex.next_cell == other.next_cell && flex.next_fs == other.next_fs
}

/// Whether two marks are the same.
fn is_same(first: bool, second: bool) -> bool
    ensures { IsTrue result ↔ (first ≡ second) }
{
    if first { second } else { !second }
}

/// Whether two lists of rows are the same.
fn same_rows(rows: &DevRows, others: &DevRows) -> bool
    ensures { IsTrue result ↔ (rows.now ≡ others.now) }
{
    if rows.len() != others.len() {
        return false;
    }
    for i in 0..rows.len() {
        if !is_row(rows.at(i), others.at(i)) {
            return false;
        }
    }
    true
}

/// Whether two rows are the same.
fn is_row(row: &DevRow, other: &DevRow) -> bool
    ensures { IsTrue result ↔ (row.now ≡ other.now) }
{
    row.path.bytes() == other.path.bytes() && row.tier == other.tier && row.sectors == other.sectors
}

/// Whether two lists of segments are the same.
fn same_segments(segments: &SegList, others: &SegList) -> bool
    ensures { IsTrue result ↔ (segments.now ≡ others.now) }
{
    if segments.len() != others.len() {
        return false;
    }
    for i in 0..segments.len() {
        if !is_segment(segments.at(i), others.at(i)) {
            return false;
        }
    }
    true
}

/// Whether two segments are the same.
fn is_segment(segment: &Segment, other: &Segment) -> bool
    ensures { IsTrue result ↔ (segment.now ≡ other.now) }
{
    segment.dev == other.dev && segment.first == other.first && segment.blocks == other.blocks
}

/// Whether books are those of a new pool of this name.
pub fn are_first(books: &Books, name: &Name) -> bool
    ensures { IsTrue result ↔ AreFirst name.now books.now }
{
    books.generation == 1
        && books.rec.overprovisioning
        && books.rec.fs_limit as u64 == DEFAULT_FS_LIMIT
        && books.rec.name.bytes() == name.bytes()
        && are_data_rows(books.rec.devs.items())
        && is_first(&books.rec.segments)
        && books.flex.next_cell == 1
        && books.flex.next_fs == 1
}

/// Whether all rows are of data devices.
fn are_data_rows(rows: &[DevRow]) -> bool
    ensures { IsTrue result ↔ AllByRecursion (λ (row : DevRow). row.tier ≡ DataTier) rows.now }
{
    rows.iter().all(|row| row.tier == Tier::DataTier)
}

/// Whether the segments are the first of a new pool.
fn is_first(segments: &SegList) -> bool
    ensures { IsTrue result ↔ (segments.now ≡ first_segment ∷ []) }
{
    segments.len() == 1 && is_first_segment(segments.at(0))
}

fn is_first_segment(segment: &Segment) -> bool
    ensures { IsTrue result ↔ (segment.now ≡ first_segment) }
{
    segment.dev == 0
        && u64::from(segment.first) == FLEX_BLOCKS
        && u64::from(segment.blocks) == FIRST_ALLOCATION
}

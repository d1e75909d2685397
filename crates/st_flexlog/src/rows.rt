ghost use Rattle.std.specs.Prelude.{◌≡◌, ◌+◌, ◌<◌, ◌^◌, ◌==◌, length};
ghost use Rattle.std.specs.List.{list_all, list_any};
ghost use Rattle.st_flexlog.specs.Delta.{rows_of};
ghost use Rattle.st_flexlog.specs.Applied.{is_of_fs, are_of_one, is_before, blocks_rise, cells_follow, may_come};

use crate::delta::{Delta, DeltaRow};
use crate::state::FlexState;
use st_limits::BLOCK_SECTORS;
use st_units::FsRow;

/// How many cell numbers a commit takes at most.
const CELLS_OF_COMMIT: u64 = 2;

/// Whether a commit of this generation can have put the delta, with these rows, behind the state.
pub fn may_come(generation: u64, delta: &Delta, rows: &[DeltaRow], state: &FlexState) -> bool
    requires { rows.now ≡ rows_of delta.now }
    ensures { result ≡ may_come generation delta.now state.now }
{
    delta.serial == state.serial
        && is_next_cell(state.next_cell, rows.len(), delta.next_cell)
        && delta.next_cell <= generation.saturating_mul(CELLS_OF_COMMIT)
        && cells_follow(state.next_cell, rows)
        && are_of_one(state.filesystems.items(), rows)
        && blocks_rise(rows)
}

fn is_next_cell(before: u64, rows: usize, after: u64) -> bool
    ensures { result ≡ (after == before + rows) }
{
    before <= after && after - before == rows as u64
}

fn cells_follow(next: u64, rows: &[DeltaRow]) -> bool
    requires { next + length rows.now < 2 ^ 64 }
    ensures { result ≡ cells_follow next rows.now }
{
    match rows {
        [] => true,
        [row, later @ ..] => row.cell == next && cells_follow(next + 1, later),
    }
}

fn are_of_one(filesystems: &[FsRow], rows: &[DeltaRow]) -> bool
    ensures { result ≡ are_of_one filesystems.now rows.now }
{
    rows.is_empty() || are_of_some(filesystems, rows)
}

fn are_of_some(filesystems: &[FsRow], rows: &[DeltaRow]) -> bool
    ensures { result ≡ list_any (λ fs. list_all (is_of_fs fs) rows.now) filesystems.now }
{
    filesystems.iter().any(|fs| all_of_fs(fs, rows))
}

fn all_of_fs(fs: &FsRow, rows: &[DeltaRow]) -> bool
    ensures { result ≡ list_all (is_of_fs fs.now) rows.now }
{
    rows.iter().all(|row| is_of_fs(fs, row))
}

fn is_of_fs(fs: &FsRow, row: &DeltaRow) -> bool
    ensures { result ≡ is_of_fs fs.now row.now }
{
    row.fs == fs.serial && u64::from(row.block) < fs.size / BLOCK_SECTORS
}

fn is_before(row: &DeltaRow, later: &DeltaRow) -> bool
    ensures { result ≡ is_before row.now later.now }
{
    row.block < later.block
}

fn is_before_all(row: &DeltaRow, later: &[DeltaRow]) -> bool
    ensures { result ≡ list_all (is_before row.now) later.now }
{
    later.iter().all(|other| is_before(row, other))
}

fn blocks_rise(rows: &[DeltaRow]) -> bool
    ensures { result ≡ blocks_rise rows.now }
{
    match rows {
        [] => true,
        [row, later @ ..] => is_before_all(row, later) && blocks_rise(later),
    }
}

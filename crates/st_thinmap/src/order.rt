//! Where a number stands among items in order.
ghost use Rattle.std.specs.Prelude.{◌≡◌, ◌+◌, ◌^◌, ◌<◌, ◌≤◌, length};
ghost use Rattle.std.specs.List.{All};
ghost use Rattle.st_thinmap.specs.declared.mapping.Mapping.{Mapping};
ghost use Rattle.st_thinmap.specs.Order.{RisesFrom, key, key_of};
ghost use Rattle.st_thinmap.specs.Thin.{of_fs};
ghost use Rattle.st_thinmap.specs.inner.Rank.{rank};
ghost use Rattle.st_thinmap.specs.inner.Uses as table;

use crate::mapping::Mapping;
use crate::uses::Use;

/// A filesystem and a block of it as one number.
pub fn key_of(fs: u64, block: u32) -> u128
    ensures { result ≡ key_of fs block }
{
    u128::from(fs) * 4_294_967_296 + u128::from(block)
}

/// The place among the rows at which the block stands or would stand.
pub fn row_rank(rows: &[Mapping], fs: u64, block: u32) -> usize
    requires { RisesFrom key 0 rows.now }
    ensures rank { result ≡ rank key (key_of fs block) rows.now }
    ensures within { result ≤ length rows.now }
{
    rank_of(rows, key_of(fs, block))
}

/// The place of the first row of a filesystem, and of the first behind its rows.
pub fn run_of(rows: &[Mapping], fs: u64) -> (usize, usize)
    requires { RisesFrom key 0 rows.now }
    ensures start { result.0 ≡ rank key (key_of fs 0) rows.now }
    ensures end { result.1 ≡ rank key (key_of (fs + 1) 0) rows.now }
    ensures within { result.1 ≤ length rows.now }
{
    let start = key_of(fs, 0);
    (rank_of(rows, start), rank_of(rows, start + 4_294_967_296))
}

/// The rows of a filesystem.
pub fn own_rows(rows: &[Mapping], fs: u64) -> &[Mapping]
    requires order { RisesFrom key 0 rows.now }
    requires blocks { All (λ (m : Mapping). m.block < 2 ^ 32) rows.now }
    ensures { result.now ≡ of_fs fs rows.now }
{
    let (start, end) = run_of(rows, fs);
    &rows[start..end]
}

/// How many rows have lower numbers.
fn rank_of(rows: &[Mapping], wanted: u128) -> usize
    requires { RisesFrom key 0 rows.now }
    ensures rank { result ≡ rank key wanted rows.now }
    ensures within { result ≤ length rows.now }
{
    rows.partition_point(|row| key_of(row.fs, row.block) < wanted)
}

/// The same of a place in the table of uses.
pub fn use_rank(uses: &[Use], place: u32) -> usize
    requires { RisesFrom table.place 0 uses.now }
    ensures rank { result ≡ rank table.place place uses.now }
    ensures within { result ≤ length uses.now }
{
    uses.partition_point(|entry| entry.place < place)
}

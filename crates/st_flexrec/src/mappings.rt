ghost use Rattle.std.specs.Prelude.{◌≡◌, Bool, true, slice_get};
ghost use Rattle.std.specs.Bool.{Decides};
ghost use Rattle.std.specs.List.{list_all};
ghost use Rattle.st_flexrec.specs.Mappings.{is_mapped_before, blocks_of, is_map_row, MappingsFit};
ghost use Rattle.st_flexrec.specs.OrderLaws.{mappings_go_on};

use crate::order::{InOrder, rises};
use crate::rows::MapRow;
use st_limits::BLOCK_SECTORS;
use st_units::FsRow;

impl InOrder for MapRow {
    ghost comes_before = { is_mapped_before };

    ghost goes_on = { mappings_go_on };

    fn is_before(&self, later: &MapRow) -> bool {
        self.fs < later.fs || (self.fs == later.fs && self.block < later.block)
    }
}

/// Whether the rows keep their conditions, beside these filesystems and so many cells.
pub fn mappings_fit(filesystems: &[FsRow], cells: usize, rows: &[MapRow]) -> bool
    ensures { Decides result (MappingsFit filesystems.now cells rows.now) }
{
    rises(rows) && each_fits(filesystems, cells, rows)
}

fn each_fits(filesystems: &[FsRow], cells: usize, rows: &[MapRow]) -> bool
    ensures { result ≡ list_all (is_map_row filesystems.now cells) rows.now }
{
    rows.iter().all(|row| is_map_row(filesystems, cells, row))
}

fn is_map_row(filesystems: &[FsRow], cells: usize, row: &MapRow) -> bool
    ensures { result ≡ is_map_row filesystems.now cells row.now }
{
    u64::from(row.block) < blocks_of(filesystems, row.fs) && (row.cell as usize) < cells
}

fn blocks_of(filesystems: &[FsRow], fs: u16) -> u64
    ensures { result ≡ blocks_of (slice_get filesystems.now fs) }
{
    match filesystems.get(usize::from(fs)) {
        None => 0,
        Some(row) => row.size / BLOCK_SECTORS,
    }
}

ghost use Rattle.std.specs.Prelude.{◌≡◌, ℕ, List};

use st_fields::{put_u16, put_u32, put_u64, u16_at, u32_at, u64_at};
use st_recrows::{RecFault, Row};
use st_units::{FsRow, ItemList, NoMemory};
use std::alloc::Global;

/// How many bytes the row of a mapping has.
pub const MAP_WIDTH: usize = 12;

/// How many bytes the row of a cell has.
pub const CELL_WIDTH: usize = 12;

/// Filesystems in order of creation.
pub type FsRows = ItemList<FsRow>;

/// Mappings in order of filesystem and block.
pub type MapRows = ItemList<MapRow>;

/// Cells in order of their numbers.
pub type CellRows = ItemList<CellRow>;

/// A block of a filesystem, and the cell that holds it.
#[derive(Clone, Copy, Debug, PartialEq, Eq)]
pub struct MapRow {
    /// The number of the filesystem's row.
    pub fs: u16,
    /// The block's number in the filesystem.
    pub block: u32,
    /// The number of the cell's row.
    pub cell: u32,
}

/// A cell, and where it stands.
#[derive(Clone, Copy, Debug, PartialEq, Eq)]
pub struct CellRow {
    /// The cell's own number, from 1.
    pub cell: u64,
    /// Its block of the linear table.
    pub place: u32,
}

impl MapRow {
    ghost use Rattle.st_flexrec.specs.Rows.{MapFits, map_text};

    fn bytes(&self) -> [u8; 12]
        ensures fits { MapFits self.now }
        ensures text { result ≡ map_text self.now }
    {
        let (fs, block, cell) = (self.fs, self.block, self.cell);
        let mut out = [0; MAP_WIDTH];
        put_u16(&mut out, 0, fs);
        put_u16(&mut out, 2, 0);
        put_u32(&mut out, 4, block);
        put_u32(&mut out, 8, cell);
        out
    }
}

impl Row for MapRow {
    ghost use Rattle.st_recrows.specs.Rows.{NeedsNothing};
    ghost use Rattle.st_flexrec.specs.Rows.{MapFits, map_text, map_fields};
    ghost use Rattle.st_flexrec.specs.Laws.{map_width, map_reads_back, positive_12};

    const WIDTH: usize = MAP_WIDTH;

    ghost WIDTH = { 12 };

    ghost fits = { MapFits };

    ghost needs = { NeedsNothing };

    ghost text = { map_text };

    ghost fields = { map_fields };

    ghost is_positive = { positive_12 };

    ghost has_width = { map_width };

    ghost reads_back = { map_reads_back };

    fn put(&self, out: &mut Vec<u8>) -> Result<(), NoMemory> {
        out.extend_from_slice(&self.bytes())?;
        Ok(())
    }

    fn read_fields(_alloc: Global, bytes: &[u8]) -> Result<MapRow, RecFault> {
        Ok(MapRow {
            fs: u16_at(bytes, 0),
            block: u32_at(bytes, 4),
            cell: u32_at(bytes, 8),
        })
    }

    fn is_spelled(&self, bytes: &[u8]) -> bool {
        bytes == self.bytes().as_slice()
    }
}

impl CellRow {
    ghost use Rattle.st_flexrec.specs.Rows.{CellFits, cell_text};

    fn bytes(&self) -> [u8; 12]
        ensures fits { CellFits self.now }
        ensures text { result ≡ cell_text self.now }
    {
        let (cell, place) = (self.cell, self.place);
        let mut out = [0; CELL_WIDTH];
        put_u64(&mut out, 0, cell);
        put_u32(&mut out, 8, place);
        out
    }
}

impl Row for CellRow {
    ghost use Rattle.st_recrows.specs.Rows.{NeedsNothing};
    ghost use Rattle.st_flexrec.specs.Rows.{CellFits, cell_text, cell_fields};
    ghost use Rattle.st_flexrec.specs.Laws.{cell_width, cell_reads_back, positive_12};

    const WIDTH: usize = CELL_WIDTH;

    ghost WIDTH = { 12 };

    ghost fits = { CellFits };

    ghost needs = { NeedsNothing };

    ghost text = { cell_text };

    ghost fields = { cell_fields };

    ghost is_positive = { positive_12 };

    ghost has_width = { cell_width };

    ghost reads_back = { cell_reads_back };

    fn put(&self, out: &mut Vec<u8>) -> Result<(), NoMemory> {
        out.extend_from_slice(&self.bytes())?;
        Ok(())
    }

    fn read_fields(_alloc: Global, bytes: &[u8]) -> Result<CellRow, RecFault> {
        Ok(CellRow {
            cell: u64_at(bytes, 0),
            place: u32_at(bytes, 8),
        })
    }

    fn is_spelled(&self, bytes: &[u8]) -> bool {
        bytes == self.bytes().as_slice()
    }
}

ghost use Rattle.std.specs.Prelude.{◌≡◌, map, slice_get, IfOk};
ghost use Rattle.st_flexlog.specs.State.{serial_at, with_cell, mapping_of, state_of};

use st_flexrec::{CellRow, FlexRec, FsRows, MapRow};
use st_units::{FsRow, ItemList, NoMemory};
use std::alloc::Global;

/// A block of a filesystem, and the cell that holds it.
#[derive(Clone, Copy, Debug, PartialEq, Eq)]
pub struct Mapping {
    /// The serial of the filesystem.
    pub fs: u64,
    /// The block's number in the filesystem.
    pub block: u32,
    /// The cell's own number.
    pub cell: u64,
    /// The cell's block of the linear table.
    pub place: u32,
}

/// Mappings in order of serial and block.
pub type Mappings = ItemList<Mapping>;

/// What a pool's log says at a generation: a flex record without row numbers.
#[derive(Drop)]
pub struct FlexState {
    /// The record is of version 2.
    pub version2: bool,
    /// The pool's serial.
    pub serial: u64,
    /// The serial that the next filesystem gets.
    pub next_fs: u64,
    /// The number that the next cell gets.
    pub next_cell: u64,
    pub filesystems: FsRows,
    pub mappings: Mappings,
}

/// What the record says.
pub fn state_of(alloc: Global, rec: FlexRec) -> Result<FlexState, NoMemory>
    ensures { IfOk result (λ state. state ≡ state_of rec) }
{
    let filesystems = rec.filesystems.items();
    let mappings = mappings_of(alloc, filesystems, rec.cells.items(), rec.mappings.items())?;
    Ok(FlexState {
        version2: rec.version2,
        serial: rec.serial,
        next_fs: rec.next_fs,
        next_cell: rec.next_cell,
        filesystems: rec.filesystems,
        mappings,
    })
}

fn mappings_of(
    alloc: Global,
    filesystems: &[FsRow],
    cells: &[CellRow],
    rows: &[MapRow],
) -> Result<Mappings, NoMemory>
    ensures { IfOk result (λ mappings. mappings ≡ map (mapping_of filesystems.now cells.now) rows.now) }
{
    let mut mappings = Vec::with_capacity(alloc, rows.len())?;
    for row in rows {
        mappings.push(mapping_of(filesystems, cells, row))?;
    }
    Ok(Mappings::of(mappings))
}

fn mapping_of(filesystems: &[FsRow], cells: &[CellRow], row: &MapRow) -> Mapping
    ensures { result ≡ mapping_of filesystems.now cells.now row.now }
{
    let fs = serial_at(filesystems, row.fs);
    with_cell(fs, row.block, cells, row.cell)
}

fn serial_at(filesystems: &[FsRow], fs: u16) -> u64
    ensures { result ≡ serial_at (slice_get filesystems.now fs) }
{
    match filesystems.get(usize::from(fs)) {
        None => 0,
        Some(row) => row.serial,
    }
}

fn with_cell(fs: u64, block: u32, cells: &[CellRow], cell: u32) -> Mapping
    ensures { result ≡ with_cell fs block (slice_get cells.now cell) }
{
    let (cell, place) = match cells.get(cell as usize) {
        None => (0, 0),
        Some(row) => (row.cell, row.place),
    };
    Mapping {
        fs,
        block,
        cell,
        place,
    }
}

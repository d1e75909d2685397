ghost use Rattle.std.specs.Prelude.{◌≡◌, ◌<◌, ◌^◌, ℕ, true, false, length, IfOk};
ghost use Rattle.st_recrows.specs.Rows.{Reads, Spells};
ghost use Rattle.st_flexrec.specs.Head.{HeadFits};
ghost use Rattle.st_flexrec.specs.Record.{RecFits, record_text};
ghost use Rattle.st_flexrec.specs.Reading.{Follows};
ghost use Rattle.st_flexrec.specs.Conditions.{KeepsConditions, IsFlexRec, is_within};

use crate::conditions::{is_within, keeps_conditions};
use crate::head::{FlexHead, HEAD_WIDTH};
use crate::rows::{CELL_WIDTH, CellRows, FsRows, MAP_WIDTH, MapRows};
use st_recrows::{FS_WIDTH, RecFault, Row, put_rows, read_row, read_rows};
use st_units::{Bytes, NoMemory};
use std::alloc::Global;

/// What the flex record of a pool says.
#[derive(Drop)]
pub struct FlexRec {
    /// The record is of version 2, which each commit writes; else of version 1, without marks for a merge.
    pub version2: bool,
    /// The pool's serial.
    pub serial: u64,
    /// The serial that the next filesystem gets.
    pub next_fs: u64,
    /// The number that the next cell gets.
    pub next_cell: u64,
    pub filesystems: FsRows,
    pub mappings: MapRows,
    pub cells: CellRows,
}

/// The spelling of the record, which has to keep its conditions.
#[tactic(auto, using(crate::proofs::Counts::filesystems_few, crate::proofs::Counts::mappings_few, crate::proofs::Counts::cells_few, crate::proofs::NoZeros::no_zeros, crate::proofs::NoZeros::mappings_free, crate::proofs::NoZeros::cells_free))]
pub fn encode(alloc: Global, rec: &FlexRec) -> Result<Bytes, NoMemory>
    requires { KeepsConditions rec.now }
    ensures { IfOk result (λ bytes. (g : ℕ) → is_within g rec.now ≡ true → Spells (IsFlexRec g) record_text bytes rec.now) }
{
    let (filesystems, mappings) = (rec.filesystems.items(), rec.mappings.items());
    let cells = rec.cells.items();
    let head = FlexHead {
        serial: rec.serial,
        next_fs: rec.next_fs,
        next_cell: rec.next_cell,
        filesystems: filesystems.len() as u16,
        version2: rec.version2,
        mappings: mappings.len() as u32,
        cells: cells.len() as u32,
    };
    let rows_len = filesystems.len() * FS_WIDTH
        + mappings.len() * MAP_WIDTH
        + cells.len() * CELL_WIDTH;
    let mut out = Vec::with_capacity(alloc, HEAD_WIDTH + rows_len)?;
    head.put(&mut out)?;
    put_rows(&mut out, filesystems)?;
    put_rows(&mut out, mappings)?;
    put_rows(&mut out, cells)?;
    Ok(Bytes::of(out))
}

/// The spelling of a record of version 1, which has to keep its conditions.
pub fn encode_v1(alloc: Global, rec: &FlexRec) -> Result<Bytes, NoMemory>
    requires kept { KeepsConditions rec.now }
    requires version { rec.now.version2 ≡ false }
    ensures { IfOk result (λ bytes. (g : ℕ) → is_within g rec.now ≡ true → Spells (IsFlexRec g) record_text bytes rec.now) }
{
    encode(alloc, rec)
}

/// The record of this generation whose spelling the bytes are. `NotARecord` comes exactly where there
/// is none.
pub fn decode(alloc: Global, bytes: &[u8], generation: u64) -> Result<FlexRec, RecFault>
    ensures { Reads (Spells (IsFlexRec generation) record_text bytes.now) result }
{
    let rec = match read(alloc, bytes) {
        Err(fault) => return Err(fault),
        Ok(rec) => rec,
    };
    if !is_within(generation, &rec) {
        return Err(RecFault::NotARecord);
    }
    match keeps_conditions(alloc, &rec) {
        Err(NoMemory) => Err(RecFault::OutOfMemory),
        Ok(true) => Ok(rec),
        Ok(false) => Err(RecFault::NotARecord),
    }
}

/// The value whose spelling the bytes are, whether or not it keeps the conditions.
fn read(alloc: Global, bytes: &[u8]) -> Result<FlexRec, RecFault>
    ensures { Reads (Spells RecFits record_text bytes.now) result }
{
    if bytes.len() < HEAD_WIDTH {
        return Err(RecFault::NotARecord);
    }
    let (front, rest) = bytes.split_at(HEAD_WIDTH);
    match read_row(alloc, front) {
        Err(fault) => Err(fault),
        Ok(head) => read_rest(alloc, head, rest),
    }
}

/// The value with this head, and with the rows whose spellings the bytes are. The counts of the
/// head are tested against the bytes first.
fn read_rest(alloc: Global, head: FlexHead, rest: &[u8]) -> Result<FlexRec, RecFault>
    requires { HeadFits head }
    ensures { Reads (Follows head rest.now) result }
{
    let fs_len = usize::from(head.filesystems) * FS_WIDTH;
    let map_len = head.mappings as usize * MAP_WIDTH;
    let cell_len = head.cells as usize * CELL_WIDTH;
    if rest.len() != fs_len + map_len + cell_len {
        return Err(RecFault::NotARecord);
    }
    let (fs_rows, others) = rest.split_at(fs_len);
    let (map_rows, cell_rows) = others.split_at(map_len);
    let filesystems = match read_rows(alloc, fs_rows) {
        Err(fault) => return Err(fault),
        Ok(filesystems) => filesystems,
    };
    let mappings = match read_rows(alloc, map_rows) {
        Err(fault) => return Err(fault),
        Ok(mappings) => mappings,
    };
    match read_rows(alloc, cell_rows) {
        Err(fault) => Err(fault),
        Ok(cells) => Ok(FlexRec {
            version2: head.version2,
            serial: head.serial,
            next_fs: head.next_fs,
            next_cell: head.next_cell,
            filesystems,
            mappings,
            cells,
        }),
    }
}

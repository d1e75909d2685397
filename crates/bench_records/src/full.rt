// Flex records as full as they can be.
ghost use Rattle.std.specs.Prelude.{◌≤◌, IfSome};
ghost use Rattle.st_flexrec.specs.Conditions.{KeepsConditions};

use st_flexrec::{
    CellRow, CellRows, FlexRec, FsRows, MapRow, MapRows, decode, encode, keeps_conditions,
};
use st_limits::BLOCK_SECTORS;
use st_units::{Bytes, FsRow, ItemList, Name};
use std::alloc::Global;

/// How many blocks each filesystem has, all of them mapped.
const BLOCKS: u32 = 256;

/// A generation late enough for every such record.
const GENERATION: u64 = 1 << 48;

fn put_last<T: Drop>(list: &mut ItemList<T>, item: T) -> Option<()> {
    list.push(item).ok()
}

fn add_filesystem(alloc: Global, rows: &mut FsRows, fs: u16) -> Option<()> {
    let name = [b'f', b'a' + (fs / 16 % 16) as u8, b'a' + (fs % 16) as u8];
    put_last(
        rows,
        FsRow {
            serial: u64::from(fs) + 1,
            name: Name::read(alloc, &name).ok()?,
            size: u64::from(BLOCKS) * BLOCK_SECTORS,
            limit: None,
            origin: None,
            merge: false,
        },
    )
}

/// Maps each block of the filesystem to a cell of its own. Places fall as cells rise.
fn add_blocks(mappings: &mut MapRows, cells: &mut CellRows, fs: u16) -> Option<()> {
    for block in 0..BLOCKS {
        let cell = u32::from(fs) * BLOCKS + block;
        put_last(mappings, MapRow { fs, block, cell })?;
        put_last(
            cells,
            CellRow {
                cell: u64::from(cell) + 1,
                place: u32::MAX - cell,
            },
        )?;
    }
    Some(())
}

/// So many filesystems, all of whose blocks are mapped. None where memory is refused, or where there are more than a record holds.
pub fn record(alloc: Global, filesystems: u16) -> Option<FlexRec>
    ensures { IfSome result (λ rec. KeepsConditions rec) }
{
    let mut rec = FlexRec {
        version2: true,
        serial: 1,
        next_fs: u64::from(filesystems) + 1,
        next_cell: u64::from(filesystems) * u64::from(BLOCKS) + 1,
        filesystems: ItemList::make(alloc),
        mappings: ItemList::make(alloc),
        cells: ItemList::make(alloc),
    };
    for fs in 0..filesystems {
        add_filesystem(alloc, &mut rec.filesystems, fs)?;
        add_blocks(&mut rec.mappings, &mut rec.cells, fs)?;
    }
    match keeps_conditions(alloc, &rec) {
        Ok(true) => Some(rec),
        Ok(false) => None,
        Err(_) => None,
    }
}

/// The record's spelling, made so many times. None where memory is refused, or where it is made no time.
pub fn encode_often(alloc: Global, rec: &FlexRec, times: u32) -> Option<Bytes>
    requires { KeepsConditions rec.now }
{
    let mut last = None;
    for _ in 0..times {
        last = Some(encode(alloc, rec).ok()?);
    }
    last
}

/// How many times out of so many the bytes were read.
pub fn decode_often(alloc: Global, bytes: &[u8], times: u32) -> u32
    ensures { result ≤ times }
{
    let mut read = 0;
    for _ in 0..times {
        if decode(alloc, bytes, GENERATION).is_ok() {
            read += 1;
        }
    }
    read
}

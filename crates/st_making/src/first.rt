ghost use Rattle.std.specs.Prelude.{◌≡◌, ◌+◌, ◌<◌, ◌≤◌, ◌^◌, true, length, IfOk};
ghost use Rattle.st_fields.specs.Slot.{padded};
ghost use Rattle.st_making.specs.First.{AreNew, AreDataRows, IsFirst, first_books, first_flex, first_record, flex_record};

use st_books::Books;
use st_deltalog::Tail;
use st_flexlog::{FlexState, Mappings};
use st_flexrec::{CellRows, FlexRec, FsRows, MapRows};
use st_limits::{DEFAULT_FS_LIMIT, FIRST_ALLOCATION, FLEX_BLOCKS};
use st_poolrec::PoolRec;
use st_units::{Bytes, DevRows, Name, NoMemory, PoolSerial, SegList, Segment};
use std::alloc::Global;

/// The spellings of a pool's first records, with the memory that it takes to write them.
#[derive(Drop)]
pub struct First {
    pub rec_text: Bytes,
    /// The body of the first checkpoint.
    pub body: Bytes,
    pub rec_work: Vec<u8>,
    pub body_work: Vec<u8>,
}

/// The books that the devices of a new pool are to bear: generation 1, on these data devices, with the first blocks of the first device
/// taken and no filesystem.
pub fn first_books(
    alloc: Global,
    serial: PoolSerial,
    name: Name,
    devs: DevRows,
) -> Result<Books, NoMemory>
    requires { AreDataRows devs }
    ensures { IfOk result (λ books. AreNew books × (books ≡ first_books serial name devs)) }
{
    let mut segments = SegList::make(alloc);
    segments.push(Segment {
        dev: 0,
        first: FLEX_BLOCKS as u32,
        blocks: FIRST_ALLOCATION as u32,
    })?;
    let flex = first_flex(alloc, &serial);
    let rec = PoolRec {
        serial: serial.number(),
        gone: false,
        overprovisioning: true,
        version2: true,
        fs_limit: DEFAULT_FS_LIMIT as u32,
        name,
        devs,
        segments,
    };
    Ok(Books {
        rec,
        flex,
        generation: 1,
        tail: Tail { slot: 1, next: 1 },
        has_committed: false,
    })
}

/// What the log of a new pool says.
pub fn first_flex(alloc: Global, serial: &PoolSerial) -> FlexState
    ensures { result ≡ first_flex serial.now }
{
    FlexState {
        version2: true,
        serial: serial.number(),
        next_fs: 1,
        next_cell: 1,
        filesystems: FsRows::make(alloc),
        mappings: Mappings::make(alloc),
    }
}

/// The spellings of these books.
pub fn spell_first(alloc: Global, books: &Books) -> Result<First, NoMemory>
    requires { AreNew books.now }
    ensures { IfOk result (IsFirst books.now) }
{
    let rec_text = st_poolrec::encode(alloc, &books.rec)?;
    let body = st_flexrec::encode(alloc, &flex_record(alloc, books.rec.serial))?;
    let rec_work = work_for(alloc, rec_text.items())?;
    let body_work = work_for(alloc, body.items())?;
    Ok(First {
        rec_text,
        body,
        rec_work,
        body_work,
    })
}

/// The flex record of a new pool.
fn flex_record(alloc: Global, serial: u64) -> FlexRec
    ensures { result ≡ flex_record serial }
{
    FlexRec {
        version2: true,
        serial,
        next_fs: 1,
        next_cell: 1,
        filesystems: FsRows::make(alloc),
        mappings: MapRows::make(alloc),
        cells: CellRows::make(alloc),
    }
}

/// What it takes to write a body of so many bytes into a slot.
fn work_for(alloc: Global, body: &[u8]) -> Result<Vec<u8>, NoMemory>
    requires { length body.now < 2 ^ 40 }
    ensures { IfOk result (λ work. length work.items ≡ padded (64 + length body.now)) }
{
    let sectors = (64 + body.len() + 511) / 512;
    Ok(vec![in alloc; 0u8; 512 * sectors]?)
}

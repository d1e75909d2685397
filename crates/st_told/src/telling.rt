ghost use Rattle.std.specs.Prelude.{◌≡◌, ◌≤◌, [], ◌^◌, true, not, length, IfOk};
ghost use Rattle.std.specs.List.{list_any};
ghost use Rattle.st_limits.specs.Sums.{cache_capacity};
ghost use Rattle.st_units.specs.declared.rows.DevRow.{DevRow};
ghost use Rattle.st_poolrec.specs.Record.{is_record};
ghost use Rattle.st_seg.specs.Blocks.{blocks_of};
ghost use Rattle.st_model.specs.declared.state.PoolMode.TheVariants.{Up};
ghost use Rattle.st_model.specs.Sums.{AreSmall, cache_rows, is_data, sectors_in};
ghost use Rattle.st_rack.specs.Device.{Image};
ghost use Rattle.st_image.specs.Rack.{IsSerial};
ghost use Rattle.st_image.specs.Stands.{cold_cache, state_of};

use st_books::Books;
use st_limits::usable_blocks;
use st_model::{CacheState, NumberMap, PoolMode, PoolState};
use st_units::{DevRow, ItemList, NoMemory, PoolSerial, SegList, Segment, Tier};
use std::alloc::Global;

/// The state of a pool with these books, once it is up.
pub fn told(alloc: Global, books: &Books) -> Result<PoolState, NoMemory>
    requires serial { IsSerial books.now.rec.serial }
    requires valid { is_record books.now.rec ≡ true }
    requires filesystems { books.now.flex.filesystems ≡ [] }
    requires mappings { books.now.flex.mappings ≡ [] }
    ensures { IfOk result (λ pool. (m : Image) → pool ≡ record (state_of books.now.generation books.now.rec books.now.flex m) { mode = Up }) }
{
    let rec = &books.rec;
    Ok(PoolState {
        serial: PoolSerial::of(rec.serial),
        name: rec.name.copy()?,
        mode: PoolMode::Up,
        devices: rec.devs.copy(alloc)?,
        filesystems: ItemList::make(alloc),
        cells: NumberMap::make(alloc),
        next_cell: books.flex.next_cell,
        next_filesystem: books.flex.next_fs,
        allocated: allocated_in(&rec.segments),
        filesystem_limit: u64::from(rec.fs_limit),
        overprovisioning: rec.overprovisioning,
        commits: books.generation,
        cache: cold_cache(alloc, rec.devs.items()),
    })
}

/// The blocks of all segments.
fn allocated_in(segments: &SegList) -> u64
    requires { length segments.now ≤ 16 }
    ensures { result ≡ length (blocks_of segments.now) }
{
    let mut sum = 0;
    for i in 0..segments.len() {
        let blocks = count_blocks(segments.at(i));
        sum += blocks;
    }
    sum
}

/// The blocks of a segment.
fn count_blocks(segment: &Segment) -> u64
    ensures value { result ≡ segment.now.blocks }
    ensures small { result ≤ 2 ^ 32 }
{
    u64::from(segment.blocks)
}

/// The empty cache of a pool on these devices.
fn cold_cache(alloc: Global, rows: &[DevRow]) -> Option<CacheState>
    requires { AreSmall rows.now }
    ensures { result ≡ cold_cache (cache_rows rows.now) }
{
    if has_cache(rows) {
        Some(CacheState {
            capacity: cache_capacity(rows),
            cells: ItemList::make(alloc),
            hits: 0,
            misses: 0,
        })
    } else {
        None
    }
}

/// Whether one of the devices is of the cache tier.
fn has_cache(rows: &[DevRow]) -> bool
    ensures { result ≡ list_any (λ (row : DevRow). not (is_data row.tier)) rows.now }
{
    rows.iter().any(|row| row.tier == Tier::CacheTier)
}

/// The blocks of the cache tier.
fn cache_capacity(rows: &[DevRow]) -> u64
    requires { AreSmall rows.now }
    ensures { result ≡ cache_capacity (sectors_in (cache_rows rows.now)) }
{
    let mut blocks = 0;
    for row in rows {
        if row.tier == Tier::CacheTier {
            blocks += usable_blocks(row.sectors);
        }
    }
    blocks
}

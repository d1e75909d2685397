//! What a tier is made of.
ghost use Rattle.std.specs.Prelude.{◌≡◌, ◌<◌, ◌+◌, ◌≤◌, IfOk};
ghost use Rattle.std.specs.List.{All};
ghost use Rattle.st_seg.specs.Blocks.{IsSegment, NoneTwice, blocks_of};
ghost use Rattle.st_cachetier.specs.Tier.{AreCacheRows, row_blocks, capacity_of};

use st_limits::usable_blocks;
use st_linear::LinearTable;
use st_units::{DevRow, NoMemory, SegList, Segment};
use std::alloc::Global;

/// How many cells the devices can hold.
pub fn capacity(rows: &[DevRow]) -> usize
    requires { AreCacheRows rows.now }
    ensures capacity { result ≡ capacity_of rows.now }
    ensures some { 0 < result }
{
    let mut sum = 0;
    for row in rows {
        sum += usable_blocks(row.sectors);
    }
    sum as usize
}

/// The usable blocks of the devices, as a segment each.
fn segments_of(alloc: Global, rows: &[DevRow]) -> Result<SegList, NoMemory>
    requires { AreCacheRows rows.now }
    ensures blocks { IfOk result (λ segments. blocks_of segments ≡ row_blocks rows.now) }
    ensures segments { IfOk result (λ segments. All IsSegment segments) }
    ensures apart { NoneTwice (row_blocks rows.now) }
{
    let mut segments = SegList::make(alloc);
    for i in 0..rows.len() {
        segments.push(Segment {
            dev: i as u16,
            first: 0,
            blocks: usable_blocks(rows[i].sectors) as u32,
        })?;
    }
    Ok(segments)
}

/// The usable blocks of the devices, in order.
pub fn table_of(alloc: Global, rows: &[DevRow]) -> Result<LinearTable, NoMemory>
    requires { AreCacheRows rows.now }
    ensures { IfOk result (λ table. table ≡ row_blocks rows.now) }
{
    let segments = segments_of(alloc, rows)?;
    let mut table = LinearTable::make(alloc);
    table.extend(alloc, &segments)?;
    Ok(table)
}

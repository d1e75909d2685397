ghost use Rattle.std.specs.Prelude.{◌≡◌, ◌^◌, ◌<◌, ◌≤◌, ◌++◌, length, IfOk, OnOk};
ghost use Rattle.st_limits.specs.Sums.{IsDeviceSize};
ghost use Rattle.std.specs.List.{All};
ghost use Rattle.st_datatier.specs.Tier.{sectors_of};
ghost use Rattle.st_datatier.specs.Segments.{segment_at, segment_rows, share};

use crate::add::first_block;
use st_limits::usable_blocks;
use st_units::{DevRow, NoMemory, SegList, Segment, Tier};
use std::alloc::Global;

/// The first `blocks` data blocks of the devices in these rows, as segments that name rows.
pub fn segment_rows(alloc: Global, rows: &[DevRow], blocks: u64) -> Result<SegList, NoMemory>
    requires few { length rows.now ≤ 16 }
    requires sizes { All IsDeviceSize (sectors_of rows.now) }
    ensures { IfOk result (λ segments. segments ≡ segment_rows 0 blocks rows.now) }
{
    let mut segments = SegList::make(alloc);
    let mut left = blocks;
    for number in 0..rows.len() {
        let own = share(number as u16, &rows[number], left);
        put_segment(&mut segments, number as u16, own)?;
        left -= own;
    }
    Ok(segments)
}

/// How many of the next `left` blocks the device in this row has.
fn share(number: u16, row: &DevRow, left: u64) -> u64
    requires { IsDeviceSize row.now.sectors }
    ensures value { result ≡ share number row.now left }
    ensures within { result ≤ left }
    ensures small { result < 2 ^ 32 }
{
    match row.tier {
        Tier::DataTier => left.min(usable_blocks(row.sectors).saturating_sub(first_block(
            number,
        ).into())),
        Tier::CacheTier => 0,
    }
}

/// Puts so many blocks of the device in this row last, where there are some.
fn put_segment(segments: &mut SegList, number: u16, blocks: u64) -> Result<(), NoMemory>
    requires { blocks < 2 ^ 32 }
    ensures { OnOk result (segments.new ≡ segments.old ++ segment_at number blocks) }
{
    if blocks == 0 {
        return Ok(());
    }
    Ok(segments.push(Segment {
        dev: number,
        first: first_block(number),
        blocks: blocks as u32,
    })?)
}

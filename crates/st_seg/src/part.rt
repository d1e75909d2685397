ghost use Rattle.std.specs.Prelude.{◌≡◌, ◌+◌, ◌≤◌, ◌++◌, length, take, drop, option_to_list, OnOk, IfOk, IfSome};
ghost use Rattle.std.specs.List.{All};
ghost use Rattle.st_seg.specs.Blocks.{IsSegment, blocks_in, blocks_of};

use st_units::{NoMemory, SegList, Segment};
use std::alloc::Global;

/// The blocks of `ranges` without the first `skip` of them, at most `count`, as segments.
pub fn part(
    alloc: Global,
    ranges: &[Segment],
    mut skip: u64,
    count: u64,
) -> Result<SegList, NoMemory>
    requires { All IsSegment ranges.now }
    ensures blocks { IfOk result (λ segments. blocks_of segments ≡ take count (drop skip (blocks_of ranges.now))) }
    ensures segments { IfOk result (λ segments. All IsSegment segments) }
{
    let mut segments = SegList::make(alloc);
    let mut left = count;
    for range in ranges {
        put(&mut segments, clip(range, skip, left))?;
        let blocks = u64::from(range.blocks);
        left = left.saturating_sub(blocks.saturating_sub(skip));
        skip = skip.saturating_sub(blocks);
    }
    Ok(segments)
}

/// Puts the piece last, where there is one.
fn put(segments: &mut SegList, piece: Option<Segment>) -> Result<(), NoMemory>
    ensures { OnOk result (segments.new ≡ segments.old ++ option_to_list piece) }
{
    match piece {
        Some(piece) => Ok(segments.push(piece)?),
        None => Ok(()),
    }
}

/// The blocks of `range` without the first `skip` of them, at most `count`; none where none is
/// left.
fn clip(range: &Segment, skip: u64, count: u64) -> Option<Segment>
    requires { IsSegment range.now }
    ensures blocks { blocks_of (option_to_list result) ≡ take count (drop skip (blocks_in range.now)) }
    ensures segment { IfSome result IsSegment }
{
    let blocks = u64::from(range.blocks).saturating_sub(skip).min(count);
    if blocks == 0 {
        return None;
    }
    Some(Segment {
        dev: range.dev,
        first: range.first + skip as u32,
        blocks: blocks as u32,
    })
}

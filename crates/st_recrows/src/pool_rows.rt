ghost use Rattle.std.specs.Prelude.{◌≡◌, ℕ, List};
ghost use Rattle.st_recrows.specs.Rows.{NeedsNothing};
ghost use Rattle.st_recrows.specs.PoolRows.{DevFits, dev_text, dev_fields, tier_code, tier_in, SegmentFits, segment_text, segment_fields};
ghost use Rattle.st_recrows.specs.PoolLaws.{dev_width, dev_reads_back, segment_width, segment_reads_back, positive_12, positive_80};

use crate::fault::RecFault;
use crate::row::Row;
use crate::texts::{path_of, put_text, text_at};
use st_fields::{put, put_u16, put_u32, put_u64, u16_at, u32_at, u64_at};
use st_units::{DevRow, NoMemory, Segment, Tier};
use std::alloc::Global;

/// How many bytes the row of a device has.
pub const DEV_WIDTH: usize = 80;

/// How many bytes the row of a segment has.
pub const SEGMENT_WIDTH: usize = 12;

const DATA_TIER: u8 = 0;

const CACHE_TIER: u8 = 1;

fn code_of(tier: Tier) -> u8
    ensures { result ≡ tier_code tier }
{
    match tier {
        Tier::DataTier => DATA_TIER,
        Tier::CacheTier => CACHE_TIER,
    }
}

fn tier_of(code: u8) -> Tier
    ensures { result ≡ tier_in code }
{
    if code == DATA_TIER {
        Tier::DataTier
    } else {
        Tier::CacheTier
    }
}

fn dev_bytes(dev: &DevRow) -> [u8; 80]
    ensures fits { DevFits dev.now }
    ensures text { result ≡ dev_text dev.now }
{
    let sectors = dev.sectors;
    let path = dev.path.bytes();
    let mut out = [0; DEV_WIDTH];
    put_u16(&mut out, 0, path.len() as u16);
    put_text(&mut out, 2, path);
    put(&mut out, 66, &[code_of(dev.tier), 0, 0, 0, 0, 0]);
    put_u64(&mut out, 72, sectors);
    out
}

impl Row for DevRow {
    const WIDTH: usize = DEV_WIDTH;

    ghost WIDTH = { 80 };

    ghost fits = { DevFits };

    ghost needs = { NeedsNothing };

    ghost text = { dev_text };

    ghost fields = { dev_fields };

    ghost is_positive = { positive_80 };

    ghost has_width = { dev_width };

    ghost reads_back = { dev_reads_back };

    fn put(&self, out: &mut Vec<u8>) -> Result<(), NoMemory> {
        out.extend_from_slice(&dev_bytes(self))?;
        Ok(())
    }

    fn read_fields(alloc: Global, bytes: &[u8]) -> Result<DevRow, RecFault> {
        let path = text_at(bytes, 2, u16_at(bytes, 0));
        match path_of(alloc, path) {
            Err(fault) => Err(fault),
            Ok(path) => Ok(DevRow {
                path,
                tier: tier_of(bytes[66]),
                sectors: u64_at(bytes, 72),
            }),
        }
    }

    fn is_spelled(&self, bytes: &[u8]) -> bool {
        bytes == dev_bytes(self).as_slice()
    }
}

fn segment_bytes(segment: &Segment) -> [u8; 12]
    ensures fits { SegmentFits segment.now }
    ensures text { result ≡ segment_text segment.now }
{
    let (dev, first, blocks) = (segment.dev, segment.first, segment.blocks);
    let mut out = [0; SEGMENT_WIDTH];
    put_u16(&mut out, 0, dev);
    put_u16(&mut out, 2, 0);
    put_u32(&mut out, 4, first);
    put_u32(&mut out, 8, blocks);
    out
}

impl Row for Segment {
    const WIDTH: usize = SEGMENT_WIDTH;

    ghost WIDTH = { 12 };

    ghost fits = { SegmentFits };

    ghost needs = { NeedsNothing };

    ghost text = { segment_text };

    ghost fields = { segment_fields };

    ghost is_positive = { positive_12 };

    ghost has_width = { segment_width };

    ghost reads_back = { segment_reads_back };

    fn put(&self, out: &mut Vec<u8>) -> Result<(), NoMemory> {
        out.extend_from_slice(&segment_bytes(self))?;
        Ok(())
    }

    fn read_fields(_alloc: Global, bytes: &[u8]) -> Result<Segment, RecFault> {
        Ok(Segment {
            dev: u16_at(bytes, 0),
            first: u32_at(bytes, 4),
            blocks: u32_at(bytes, 8),
        })
    }

    fn is_spelled(&self, bytes: &[u8]) -> bool {
        bytes == segment_bytes(self).as_slice()
    }
}

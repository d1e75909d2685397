ghost use Rattle.std.specs.Prelude.{◌≡◌, ◌+◌, ◌<◌, ◌≤◌, ◌^◌, length};
ghost use Rattle.std.specs.List.{list_all};
ghost use Rattle.st_poolrec.specs.Conditions.{most_filesystems, is_data, begins_with_data, has_fit_size, has_other_path, have_own_paths, first_block, is_part, ends_device, take_in_order, rows_fit};
ghost use Rattle.st_poolrec.specs.Record.{is_record};

use crate::record::PoolRec;
use st_limits::{
    FLEX_BLOCKS, MAX_DEVICE_SECTORS, MAX_FILESYSTEMS, MAX_FILESYSTEMS_V1, MAX_POOL_DEVICES,
    MIN_DEVICE_SECTORS, usable_blocks,
};
use st_units::{DevRow, Segment, Tier};

/// The most filesystems that a pool may be limited to.
fn most_filesystems(version2: bool) -> u64
    ensures { result ≡ most_filesystems version2 }
{
    if version2 {
        MAX_FILESYSTEMS
    } else {
        MAX_FILESYSTEMS_V1
    }
}

/// Whether the record has a spelling: whether it keeps all conditions on its rows.
pub fn is_record(rec: &PoolRec) -> bool
    ensures { result ≡ is_record rec.now }
{
    let devs = rec.devs.items();
    let segments = rec.segments.items();
    u64::from(rec.fs_limit) <= most_filesystems(rec.version2)
        && 1 <= devs.len()
        && devs.len() as u64 <= MAX_POOL_DEVICES
        && segments.len() as u64 <= MAX_POOL_DEVICES
        && rows_fit(devs, segments)
}

fn rows_fit(devs: &[DevRow], segments: &[Segment]) -> bool
    requires { length devs.now ≤ 16 }
    ensures { result ≡ rows_fit devs.now segments.now }
{
    begins_with_data(devs)
        && have_fit_sizes(devs)
        && have_own_paths(devs)
        && take_in_order(0, segments, devs)
}

fn have_fit_sizes(devs: &[DevRow]) -> bool
    ensures { result ≡ list_all has_fit_size devs.now }
{
    devs.iter().all(|dev| has_fit_size(dev))
}

fn is_data(tier: Tier) -> bool
    ensures { result ≡ is_data tier }
{
    match tier {
        Tier::DataTier => true,
        Tier::CacheTier => false,
    }
}

fn begins_with_data(devs: &[DevRow]) -> bool
    ensures { result ≡ begins_with_data devs.now }
{
    match devs {
        [] => false,
        [dev, ..] => is_data(dev.tier),
    }
}

fn has_fit_size(dev: &DevRow) -> bool
    ensures { result ≡ has_fit_size dev.now }
{
    MIN_DEVICE_SECTORS <= dev.sectors && dev.sectors <= MAX_DEVICE_SECTORS
}

fn has_other_path(dev: &DevRow, other: &DevRow) -> bool
    ensures { result ≡ has_other_path dev.now other.now }
{
    other.path.bytes() != dev.path.bytes()
}

fn have_other_paths(dev: &DevRow, others: &[DevRow]) -> bool
    ensures { result ≡ list_all (has_other_path dev.now) others.now }
{
    others.iter().all(|other| has_other_path(dev, other))
}

/// At most 16 rows are compared with each other.
fn have_own_paths(devs: &[DevRow]) -> bool
    ensures { result ≡ have_own_paths devs.now }
{
    match devs {
        [] => true,
        [dev, others @ ..] => have_other_paths(dev, others) && have_own_paths(others),
    }
}

fn first_block(at: u16) -> u64
    ensures { result ≡ first_block at }
{
    if at == 0 { FLEX_BLOCKS } else { 0 }
}

fn end_of(segment: &Segment) -> u64
    ensures { result ≡ segment.now.first + segment.now.blocks }
{
    u64::from(segment.first) + u64::from(segment.blocks)
}

fn is_part(at: u16, dev: &DevRow, segment: &Segment) -> bool
    ensures { result ≡ is_part at dev.now segment.now }
{
    segment.dev == at
        && u64::from(segment.first) == first_block(at)
        && 0 < segment.blocks
        && end_of(segment) <= usable_blocks(dev.sectors)
}

fn ends_device(dev: &DevRow, segment: &Segment) -> bool
    ensures { result ≡ ends_device dev.now segment.now }
{
    end_of(segment) == usable_blocks(dev.sectors)
}

fn take_in_order(at: u16, segments: &[Segment], devs: &[DevRow]) -> bool
    requires { at + length devs.now < 2 ^ 16 }
    ensures { result ≡ take_in_order at segments.now devs.now }
{
    match segments {
        [] => true,
        [segment, later @ ..] => match devs {
            [] => false,
            [dev, others @ ..] => {
                if is_data(dev.tier) {
                    is_part(at, dev, segment)
                        && (later.is_empty() || ends_device(dev, segment))
                        && take_in_order(at + 1, later, others)
                } else {
                    take_in_order(at + 1, segments, others)
                }
            }
        },
    }
}

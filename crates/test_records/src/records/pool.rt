// The record of a pool.
use super::{Change, changed, put_last};
use st_poolrec::{PoolRec, RecFault, decode, encode, encode_v1, is_record};
use st_units::{Bytes, DevPath, DevRow, ItemList, Name, Segment, Tier};
use std::alloc::Global;
use std::process::Abort;
use std::test::Fail;

fn pool_bytes(alloc: Global, rec: &PoolRec) -> Result<Bytes, Fail> {
    if !is_record(rec) {
        return Err("no pool record".into());
    }
    Ok(encode(alloc, rec)?)
}

fn pool_fault(alloc: Global, bytes: &[u8]) -> Option<RecFault> {
    decode(alloc, bytes).err()
}

fn dev_row(alloc: Global, path: &[u8], tier: Tier, sectors: u64) -> Result<DevRow, Fail> {
    Ok(DevRow {
        path: DevPath::read(alloc, path)?,
        tier,
        sectors,
    })
}

/// Data, cache, data; all blocks of the first, ten of the third.
fn small_pool(alloc: Global) -> Result<PoolRec, Fail> {
    let mut devs = ItemList::make(alloc);
    put_last(&mut devs, dev_row(alloc, b"/d0", Tier::DataTier, 8_192)?)?;
    put_last(&mut devs, dev_row(alloc, b"/d1", Tier::CacheTier, 8_192)?)?;
    put_last(&mut devs, dev_row(alloc, b"/d2", Tier::DataTier, 8_448)?)?;
    let mut segments = ItemList::make(alloc);
    put_last(
        &mut segments,
        Segment {
            dev: 0,
            first: 26,
            blocks: 36,
        },
    )?;
    put_last(
        &mut segments,
        Segment {
            dev: 2,
            first: 0,
            blocks: 10,
        },
    )?;
    Ok(PoolRec {
        serial: 1,
        gone: false,
        overprovisioning: true,
        version2: false,
        fs_limit: 100,
        name: Name::read(alloc, b"p")?,
        devs,
        segments,
    })
}

const POOL_CHANGES: [Change; 39] = [
    ("another serial", 0, 8, 9, true),
    ("both flags", 8, 4, 3, true),
    ("version 2", 8, 4, 6, true),
    ("a fourth flag", 8, 4, 8, false),
    ("the last flag", 8, 4, 0x8000_0002, false),
    ("the greatest limit", 12, 4, 128, true),
    ("above the greatest limit", 12, 4, 129, false),
    (
        "the greatest limit of version 2",
        8,
        8,
        (6 << 32) + 256,
        true,
    ),
    (
        "above the greatest limit of version 2",
        8,
        8,
        (6 << 32) + 257,
        false,
    ),
    ("no name", 16, 2, 0, false),
    ("a name one byte longer", 16, 2, 2, false),
    ("a name longer than its field", 16, 2, 65, false),
    ("no device", 18, 2, 0, false),
    ("a device more", 18, 2, 4, false),
    ("a segment less", 20, 2, 1, false),
    ("a segment more", 20, 2, 3, false),
    ("something behind the counts", 22, 2, 1, false),
    ("a slash in the name", 24, 1, 47, false),
    ("something behind the name", 25, 1, 1, false),
    ("a path one byte shorter", 88, 2, 2, false),
    ("a path without a slash", 90, 1, 100, false),
    ("one path twice", 172, 1, 48, false),
    ("a third tier", 154, 1, 2, false),
    ("a cache first", 154, 1, 1, false),
    ("something behind the tier", 155, 1, 1, false),
    ("a device too small", 160, 8, 8_191, false),
    ("the greatest device", 320, 8, 1 << 32, true),
    ("a device too large", 320, 8, (1 << 32) + 1, false),
    ("a data device left out", 234, 1, 0, false),
    ("something in a segment", 330, 2, 1, false),
    ("a segment in the flex area", 332, 4, 25, false),
    ("a segment that ends before its device", 336, 4, 35, false),
    ("a segment that ends behind its device", 336, 4, 37, false),
    ("a segment on the cache", 340, 2, 1, false),
    ("two segments on one device", 340, 2, 0, false),
    ("a gap before a segment", 344, 4, 1, false),
    ("a segment without blocks", 348, 4, 0, false),
    ("the last segment to its device's end", 348, 4, 64, true),
    (
        "the last segment behind its device's end",
        348,
        4,
        65,
        false,
    ),
];

/// Asserts of each change whether the changed bytes are a record.
fn pool_neighbours(
    rt: &impl Abort,
    alloc: Global,
    bytes: &[u8],
    changes: &[Change],
) -> Result<(), Fail> {
    for (row, at, width, number, good) in changes {
        let fault = pool_fault(alloc, &changed(alloc, bytes, *at, *width, *number)?);
        let want = if *good {
            None
        } else {
            Some(RecFault::NotARecord)
        };
        assert_eq!(rt; fault, want, "{row}");
    }
    Ok(())
}

#[test]
fn neighbours_of_a_pool_record_are_told_from_records(rt: HostRuntime) -> Result<(), Fail> {
    let alloc = rt.alloc();
    let bytes = pool_bytes(alloc, &small_pool(alloc)?)?;
    assert_eq!(rt; bytes.len(), 88 + 3 * 80 + 2 * 12);
    pool_neighbours(&rt, alloc, bytes.items(), &POOL_CHANGES)
}

#[test]
fn a_pool_record_is_read_in_its_own_version(rt: HostRuntime) -> Result<(), Fail> {
    let alloc = rt.alloc();
    for version2 in [false, true] {
        let mut rec = small_pool(alloc)?;
        rec.version2 = version2;
        let bytes = pool_bytes(alloc, &rec)?;
        let flags: &[u8] = if version2 {
            &[0, 0, 0, 6]
        } else {
            &[0, 0, 0, 2]
        };
        let written = bytes.items().get(8..12).ok_or("no flags")?;
        assert_eq!(rt; written, flags);
        match decode(alloc, bytes.items()) {
            Err(_) => return Err("no record".into()),
            Ok(found) => {
                assert_eq!(rt; found.version2, version2);
                assert_eq!(rt; found.fs_limit, 100);
            }
        }
        if !rec.version2 && is_record(&rec) {
            assert_eq!(rt; encode_v1(alloc, &rec)?.items(), bytes.items());
        }
    }
    Ok(())
}

/// Sixteen devices whose paths have 64 bytes, all blocks of each taken.
fn largest_pool(alloc: Global) -> Result<PoolRec, Fail> {
    let mut devs = ItemList::make(alloc);
    let mut segments = ItemList::make(alloc);
    for dev in 0..16u16 {
        let mut path = [b'd'; 64];
        path[0] = b'/';
        path[63] = b'a' + dev as u8;
        put_last(&mut devs, dev_row(alloc, &path, Tier::DataTier, 8_192)?)?;
        put_last(
            &mut segments,
            Segment {
                dev,
                first: if dev == 0 { 26 } else { 0 },
                blocks: if dev == 0 { 36 } else { 62 },
            },
        )?;
    }
    Ok(PoolRec {
        serial: 1 << 48,
        gone: true,
        overprovisioning: false,
        version2: false,
        fs_limit: 128,
        name: Name::read(alloc, &[b'n'; 64])?,
        devs,
        segments,
    })
}

/// One device, of which nothing is taken.
fn least_pool(alloc: Global) -> Result<PoolRec, Fail> {
    let mut devs = ItemList::make(alloc);
    put_last(&mut devs, dev_row(alloc, b"/d", Tier::DataTier, 8_192)?)?;
    Ok(PoolRec {
        serial: 1,
        gone: false,
        overprovisioning: false,
        version2: false,
        fs_limit: 0,
        name: Name::read(alloc, b"p")?,
        devs,
        segments: ItemList::make(alloc),
    })
}

/// Asserts that these bytes are a record, and that neither their beginnings nor one byte more are one.
fn ends_here(rt: &impl Abort, alloc: Global, row: &str, bytes: &[u8]) -> Result<(), Fail> {
    assert_eq!(rt; pool_fault(alloc, bytes), None, "{row}");
    for end in 0..bytes.len() {
        assert_eq!(rt;
            pool_fault(alloc, &bytes[..end]),
            Some(RecFault::NotARecord),
            "{row}, the first {end} bytes"
        );
    }
    let mut more = bytes.to_vec(alloc)?;
    more.push(0)?;
    assert_eq!(rt;
        pool_fault(alloc, &more),
        Some(RecFault::NotARecord),
        "{row}, a byte more"
    );
    Ok(())
}

#[test]
fn the_largest_and_the_least_pool_record_end_where_they_should(
    rt: HostRuntime,
) -> Result<(), Fail> {
    let alloc = rt.alloc();
    let largest = pool_bytes(alloc, &largest_pool(alloc)?)?;
    assert_eq!(rt; largest.len(), 1_624 - 64);
    ends_here(&rt, alloc, "largest", largest.items())?;
    let least = pool_bytes(alloc, &least_pool(alloc)?)?;
    assert_eq!(rt; least.len(), 88 + 80);
    ends_here(&rt, alloc, "least", least.items())
}

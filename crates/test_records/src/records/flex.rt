// The flex record.
use super::{Change, changed, put_last};
use st_flexrec::{CellRow, FlexRec, MapRow, RecFault, decode, encode, encode_v1, keeps_conditions};
use st_units::{Bytes, FsRow, ItemList, Name};
use std::alloc::Global;
use std::process::Abort;
use std::test::Fail;

fn flex_bytes(alloc: Global, rec: &FlexRec) -> Result<Bytes, Fail> {
    if !keeps_conditions(alloc, rec)? {
        return Err("no flex record".into());
    }
    Ok(encode(alloc, rec)?)
}

fn flex_fault(alloc: Global, bytes: &[u8], generation: u64) -> Option<RecFault> {
    decode(alloc, bytes, generation).err()
}

pub fn fs_row(
    alloc: Global,
    serial: u64,
    origin: Option<u64>,
    size: u64,
    limit: Option<u64>,
    name: &[u8],
) -> Result<FsRow, Fail> {
    Ok(FsRow {
        serial,
        name: Name::read(alloc, name)?,
        size,
        limit,
        origin,
        merge: false,
    })
}

/// Three filesystems, the third of the greatest size; four mappings; three cells, of which two mappings share the first.
pub fn small_flex(alloc: Global) -> Result<FlexRec, Fail> {
    let mut filesystems = ItemList::make(alloc);
    put_last(&mut filesystems, fs_row(alloc, 1, None, 256, None, b"a")?)?;
    put_last(
        &mut filesystems,
        fs_row(alloc, 2, Some(1), 256, Some(512), b"b")?,
    )?;
    put_last(
        &mut filesystems,
        fs_row(alloc, 3, Some(2), 1 << 32, Some(1 << 32), b"c")?,
    )?;
    let mut mappings = ItemList::make(alloc);
    for (fs, block, cell) in [(0, 1, 0), (1, 0, 1), (1, 1, 0), (2, 33_554_431, 2)] {
        put_last(&mut mappings, MapRow { fs, block, cell })?;
    }
    let mut cells = ItemList::make(alloc);
    for (cell, place) in [(1, 7), (2, 5), (3, u32::MAX)] {
        put_last(&mut cells, CellRow { cell, place })?;
    }
    Ok(FlexRec {
        version2: false,
        serial: 1,
        next_fs: 4,
        next_cell: 4,
        filesystems,
        mappings,
        cells,
    })
}

const FLEX_CHANGES: [Change; 52] = [
    ("another serial", 0, 8, 9, true),
    ("the next serial is a filesystem's", 8, 8, 3, false),
    ("the greatest next serial", 8, 8, 256, true),
    ("the next serial of a later generation", 8, 8, 257, false),
    ("the next cell is a cell's", 16, 8, 3, false),
    ("the next cell of a later generation", 16, 8, 5, false),
    ("a filesystem less", 24, 2, 2, false),
    ("129 filesystems", 24, 2, 129, false),
    ("version 2", 26, 2, 2, true),
    ("another version", 26, 2, 1, false),
    ("a version above 2", 26, 2, 4, false),
    ("a mark in version 1", 294, 1, 1, false),
    ("a mapping more", 28, 4, 5, false),
    (
        "a mapping more and a cell less",
        28,
        8,
        (5 << 32) + 2,
        false,
    ),
    ("more mappings than fit", 28, 4, 0xffff_ffff, false),
    ("more cells than fit", 32, 4, 0xffff_ffff, false),
    ("serial 0", 36, 8, 0, false),
    ("one serial twice", 196, 8, 1, false),
    ("a serial above the next one", 356, 8, 4, false),
    ("its own origin", 44, 8, 1, false),
    ("no origin", 204, 8, 0, true),
    ("a later origin", 204, 8, 3, false),
    ("an origin that isn't there", 364, 8, 9, false),
    ("the first one's origin", 364, 8, 1, true),
    ("no size", 52, 8, 0, false),
    ("a size of part of a block", 52, 8, 257, false),
    ("the greatest size", 52, 8, 1 << 32, true),
    ("a size too large", 52, 8, (1 << 32) + 128, false),
    ("no limit", 220, 8, 0, true),
    ("a limit below the size", 220, 8, 128, false),
    ("a limit of part of a block", 220, 8, 513, false),
    ("a limit too large", 220, 8, (1 << 32) + 128, false),
    ("no name", 68, 2, 0, false),
    ("a name one byte longer", 68, 2, 2, false),
    ("a name longer than its field", 68, 2, 65, false),
    ("a slash in a name", 70, 1, 47, false),
    ("something behind a name", 71, 1, 1, false),
    ("something behind a filesystem", 195, 1, 1, false),
    ("one name twice", 230, 1, 97, false),
    ("something in a mapping", 518, 2, 1, false),
    ("block 0", 520, 4, 0, true),
    ("a block behind the filesystem", 520, 4, 2, false),
    ("an earlier filesystem", 528, 2, 0, false),
    ("one block twice", 544, 4, 0, false),
    ("a filesystem that isn't there", 552, 2, 3, false),
    (
        "a block behind the greatest filesystem",
        556,
        4,
        33_554_432,
        false,
    ),
    ("a cell that isn't there", 560, 4, 3, false),
    ("a cell that no mapping names", 536, 4, 2, false),
    ("cell 0", 564, 8, 0, false),
    ("one cell twice", 576, 8, 1, false),
    ("a cell above the next one", 588, 8, 4, false),
    ("one place twice", 584, 4, 7, false),
];

/// Asserts of each change whether the changed bytes are a record of generation 2.
fn flex_neighbours(
    rt: &impl Abort,
    alloc: Global,
    bytes: &[u8],
    changes: &[Change],
) -> Result<(), Fail> {
    for (row, at, width, number, good) in changes {
        let fault = flex_fault(alloc, &changed(alloc, bytes, *at, *width, *number)?, 2);
        let want = if *good {
            None
        } else {
            Some(RecFault::NotARecord)
        };
        assert_eq!(rt; fault, want, "{row}");
    }
    Ok(())
}

#[test]
fn neighbours_of_a_flex_record_are_told_from_records(rt: HostRuntime) -> Result<(), Fail> {
    let alloc = rt.alloc();
    let bytes = flex_bytes(alloc, &small_flex(alloc)?)?;
    assert_eq!(rt; bytes.len(), 36 + 3 * 160 + 4 * 12 + 3 * 12);
    for (generation, good) in [
        (0, false),
        (1, false),
        (2, true),
        (1 << 48, true),
        (u64::MAX, true),
    ] {
        let want = if good {
            None
        } else {
            Some(RecFault::NotARecord)
        };
        assert_eq!(rt;
            flex_fault(alloc, bytes.items(), generation),
            want,
            "at {generation}"
        );
    }
    flex_neighbours(&rt, alloc, bytes.items(), &FLEX_CHANGES)?;
    Ok(())
}

/// The small record in version 2, with a mark on the second filesystem. The third is a snapshot of the one with this serial.
fn marked_flex(alloc: Global, origin: u64) -> Result<FlexRec, Fail> {
    let mut rec = small_flex(alloc)?;
    if rec.filesystems.len() < 3 {
        return Err("fewer than three filesystems".into());
    }
    rec.version2 = true;
    rec.filesystems.at_mut(1).merge = true;
    rec.filesystems.at_mut(2).origin = Some(origin);
    Ok(rec)
}

const MARK_CHANGES: [Change; 7] = [
    ("no mark", 294, 1, 0, true),
    ("a mark of 2", 294, 1, 2, false),
    ("something behind the mark", 295, 1, 1, false),
    ("a mark without an origin", 134, 1, 1, false),
    ("a second mark", 454, 1, 1, false),
    ("marks in version 1", 26, 2, 0, false),
    ("the greatest next serial of version 2", 8, 8, 512, true),
];

/// Whether the record keeps its conditions with a mark on its third filesystem, and none on the second.
fn third_may_merge(alloc: Global, origin: u64) -> Result<bool, Fail> {
    let mut rec = marked_flex(alloc, origin)?;
    if rec.filesystems.len() < 3 {
        return Err("fewer than three filesystems".into());
    }
    rec.filesystems.at_mut(1).merge = false;
    rec.filesystems.at_mut(2).merge = true;
    Ok(keeps_conditions(alloc, &rec)?)
}

#[test]
fn marks_stand_by_their_rule_alone(rt: HostRuntime) -> Result<(), Fail> {
    let alloc = rt.alloc();
    // a second mark merges into a marked filesystem, or into the one that another merges into
    for origin in [2, 1] {
        let bytes = flex_bytes(alloc, &marked_flex(alloc, origin)?)?;
        let mark = bytes.items().get(294).ok_or("no mark")?;
        assert_eq!(rt; *mark, 1);
        flex_neighbours(&rt, alloc, bytes.items(), &MARK_CHANGES)?;
        assert!(rt; third_may_merge(alloc, origin)?);
    }
    let bytes = flex_bytes(alloc, &marked_flex(alloc, 1)?)?;
    match decode(alloc, bytes.items(), 2) {
        Err(_) => return Err("no record".into()),
        Ok(rec) => {
            if rec.filesystems.len() < 3 {
                return Err("fewer than three filesystems".into());
            }
            assert!(rt; rec.version2);
            assert!(rt;
                !rec.filesystems.at(0).merge
                    && rec.filesystems.at(1).merge
                    && !rec.filesystems.at(2).merge
            );
        }
    }
    let beyond = changed(alloc, bytes.items(), 8, 8, 513)?;
    assert_eq!(rt; flex_fault(alloc, &beyond, 2), Some(RecFault::NotARecord));
    Ok(())
}

#[test]
fn version_1_is_written_as_it_was(rt: HostRuntime) -> Result<(), Fail> {
    let alloc = rt.alloc();
    let rec = small_flex(alloc)?;
    if rec.version2 || !keeps_conditions(alloc, &rec)? {
        return Err("no record of version 1".into());
    }
    let old = encode_v1(alloc, &rec)?;
    let count = old.items().get(24..28).ok_or("no count")?;
    assert_eq!(rt; count, [0, 3, 0, 0].as_slice());
    assert_eq!(rt; flex_fault(alloc, old.items(), 2), None);
    Ok(())
}

/// So many filesystems, each with so many blocks, all of them mapped, each to a cell of its own.
fn full_flex(alloc: Global, version2: bool, count: u16, blocks: u32) -> Result<FlexRec, Fail> {
    let mut filesystems = ItemList::make(alloc);
    let mut mappings = ItemList::make(alloc);
    let mut cells = ItemList::make(alloc);
    for fs in 0..count {
        let mut name = [b'f'; 64];
        name[0] = b'a' + (fs % 20) as u8;
        name[1] = b'a' + (fs / 20 % 20) as u8;
        let serial = u64::from(fs) + 1;
        let size = u64::from(blocks) * 128;
        put_last(
            &mut filesystems,
            fs_row(alloc, serial, None, size, None, &name)?,
        )?;
        for block in 0..blocks {
            let before = u32::from(fs).checked_mul(blocks).ok_or("too many cells")?;
            let cell = before.checked_add(block).ok_or("too many cells")?;
            put_last(&mut mappings, MapRow { fs, block, cell })?;
            put_last(
                &mut cells,
                CellRow {
                    cell: u64::from(cell) + 1,
                    place: u32::MAX - cell,
                },
            )?;
        }
    }
    Ok(FlexRec {
        version2,
        serial: 1 << 48,
        next_fs: u64::from(count) + 1,
        next_cell: u64::from(count) * u64::from(blocks) + 1,
        filesystems,
        mappings,
        cells,
    })
}

#[test]
fn the_largest_flex_records_are_read_from_their_generation_on(rt: HostRuntime) -> Result<(), Fail> {
    let alloc = rt.alloc();
    for (version2, count, blocks, len) in [
        (false, 128, 256, 807_012 - 64),
        (true, 256, 128, 827_492 - 64),
    ] {
        let bytes = flex_bytes(alloc, &full_flex(alloc, version2, count, blocks)?)?
            .items()
            .to_vec(alloc)?;
        assert_eq!(rt; bytes.len(), len);
        flex_ends(&rt, alloc, bytes)?;
    }
    for (version2, count) in [(false, 129), (true, 257)] {
        let many = full_flex(alloc, version2, count, 1)?;
        assert!(rt; !keeps_conditions(alloc, &many)?, "{count} filesystems");
    }
    Ok(())
}

/// Asserts that a full record is read from generation 16,385 on, and neither with a byte more nor with a byte less.
fn flex_ends(rt: &impl Abort, alloc: Global, mut bytes: Vec<u8>) -> Result<(), Fail> {
    for (generation, good) in [(16_384, false), (16_385, true)] {
        let want = if good {
            None
        } else {
            Some(RecFault::NotARecord)
        };
        assert_eq!(rt;
            flex_fault(alloc, &bytes, generation),
            want,
            "at {generation}"
        );
    }
    let less = bytes.len().checked_sub(1).ok_or("no bytes")?;
    bytes.push(0)?;
    assert_eq!(rt;
        flex_fault(alloc, &bytes, 16_385),
        Some(RecFault::NotARecord),
        "a byte more"
    );
    bytes.truncate(less);
    assert_eq!(rt;
        flex_fault(alloc, &bytes, 16_385),
        Some(RecFault::NotARecord),
        "a byte less"
    );
    Ok(())
}

#[test]
fn the_empty_flex_record_is_its_head(rt: HostRuntime) -> Result<(), Fail> {
    let alloc = rt.alloc();
    let empty = FlexRec {
        version2: false,
        serial: 1,
        next_fs: 1,
        next_cell: 1,
        filesystems: ItemList::make(alloc),
        mappings: ItemList::make(alloc),
        cells: ItemList::make(alloc),
    };
    let mut head = [0; 36];
    head[7] = 1;
    head[15] = 1;
    head[23] = 1;
    assert_eq!(rt; flex_bytes(alloc, &empty)?.items(), head.as_slice());
    assert_eq!(rt; flex_fault(alloc, &head, 1), None);
    assert_eq!(rt;
        flex_fault(alloc, &head[..35], 1),
        Some(RecFault::NotARecord)
    );
    for at in [15, 23] {
        let mut without = head;
        without[at] = 0;
        assert_eq!(rt;
            flex_fault(alloc, &without, 1),
            Some(RecFault::NotARecord),
            "0 at {at}"
        );
    }
    Ok(())
}

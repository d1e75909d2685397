// Commits with a delta and with a checkpoint, on two devices.
use crate::site::{body_of, commit, commit_one, found, said_at, two_devices};
use st_deltalog::Tail;
use st_memrack::{How, Kind, MemRack, Pick};
use st_rack::Rack;
use st_slots::read_sealed;
use st_units::{DevList, DevPath};
use std::alloc::Global;
use std::test::Fail;

/// A pool after commits 1 and 2 with checkpoints, and then up to this generation with deltas: that of generation g maps block g mod 2
/// to cell g - 2.
fn pool_at(alloc: Global, generation: u64) -> Result<(MemRack, DevList, Tail), Fail> {
    let (mut rack, devs) = two_devices(alloc)?;
    let mut tail = commit_one(alloc, &mut rack, &devs)?;
    for g in 2..=generation {
        let (block, cell) = ((g % 2) as u32, g.saturating_sub(2).max(1));
        if !commit(alloc, &mut rack, &devs, &mut tail, g, g > 2, block, cell)? {
            return Err("a device failed".into());
        }
    }
    Ok((rack, devs, tail))
}

/// The writes since the mark, each with a sync of its device behind it: the device, the first sector and how many.
fn are_written(rack: &MemRack, want: &[(&str, u64, u64)]) -> bool {
    let calls = &rack.record().calls;
    if calls.len() != 2 * want.len() || rack.record().missed > 0 {
        return false;
    }
    for (i, (dev, sector, sectors)) in want.iter().enumerate() {
        let (Some(write), Some(sync)) = (calls.get(2 * i), calls.get(2 * i + 1)) else {
            return false;
        };
        if (write.kind, write.sector, write.sectors) != (Kind::Write, *sector, *sectors)
            || sync.kind != Kind::Sync
            || write.dev.as_str() != *dev
            || sync.dev.as_str() != *dev
        {
            return false;
        }
    }
    true
}

#[test]
fn a_commit_writes_to_its_log_and_then_its_records(rt: HostRuntime) -> Result<(), Fail> {
    let alloc = rt.alloc();
    let (mut rack, devs) = two_devices(alloc)?;
    rack.mark();
    let mut tail = commit_one(alloc, &mut rack, &devs)?;
    let first = [
        ("/dev/sim0", 1920, 1),
        ("/dev/sim0", 80, 1),
        ("/dev/sim1", 80, 1),
    ];
    assert!(rt; are_written(&rack, &first), "generation 1");
    for (generation, has_committed, log, slot) in [
        (2, false, 256, 16),
        (3, true, 257, 80),
        (4, true, 258, 16),
        (5, false, 1920, 80),
        (6, true, 1921, 16),
    ] {
        rack.mark();
        let done = commit(
            alloc,
            &mut rack,
            &devs,
            &mut tail,
            generation,
            has_committed,
            0,
            generation,
        )?;
        assert!(rt; done, "generation {generation}");
        let want = [
            ("/dev/sim0", log, 1),
            ("/dev/sim0", slot, 1),
            ("/dev/sim1", slot, 1),
        ];
        assert!(rt; are_written(&rack, &want), "generation {generation}");
    }
    Ok(())
}

/// Turns some bits of a byte of a sector.
fn flip(rack: &mut MemRack, dev: &DevPath, sector: u64, byte: usize, bits: u8) -> Result<(), Fail> {
    if rack.sectors(dev) != Some(8_192) || sector >= 8_192 || byte >= 512 {
        return Err("no such byte".into());
    }
    let mut bytes = [0; 512];
    rack.read(dev, sector, &mut bytes)?;
    bytes[byte] ^= bits;
    if rack.sectors(dev) != Some(8_192) {
        return Err("no device any more".into());
    }
    Ok(rack.write(dev, sector, &bytes)?)
}

/// The next cell that the log says at each generation from 1 to 4.
fn next_cells(alloc: Global, rack: &mut MemRack, dev: &DevPath) -> Result<[Option<u64>; 4], Fail> {
    let mut next = [None; 4];
    for i in 0..4 {
        next[i] = said_at(alloc, rack, dev, i as u64 + 1)?.map(|said| said.0.next_cell);
    }
    Ok(next)
}

#[test]
fn a_changed_bit_takes_its_generations_from_the_log(rt: HostRuntime) -> Result<(), Fail> {
    let alloc = rt.alloc();
    let (mut rack, devs, _) = pool_at(alloc, 4)?;
    let dev = DevPath::read(alloc, b"/dev/sim0")?;
    let whole = [Some(1), Some(1), Some(2), Some(3)];
    assert_eq!(rt; next_cells(alloc, &mut rack, &dev)?, whole, "whole");
    for (row, sector, byte, bits, want) in [
        (
            "the checkpoint's magic",
            256,
            7,
            1,
            [Some(1), None, None, None],
        ),
        ("its generation", 256, 15, 1, [Some(1), None, None, None]),
        ("its length", 256, 23, 1, [Some(1), None, None, None]),
        ("its seal", 256, 63, 128, [Some(1), None, None, None]),
        ("its body", 256, 64 + 36, 1, [Some(1), None, None, None]),
        ("behind it", 256, 511, 1, whole),
        (
            "the older checkpoint",
            1920,
            64,
            1,
            [None, Some(1), Some(2), Some(3)],
        ),
        (
            "the first delta's magic",
            257,
            0,
            1,
            [Some(1), Some(1), None, None],
        ),
        ("its generation", 257, 15, 4, [Some(1), Some(1), None, None]),
        ("its seal", 257, 32, 1, [Some(1), Some(1), None, None]),
        ("its serial", 257, 71, 2, [Some(1), Some(1), None, None]),
        ("its place", 257, 103, 1, [Some(1), Some(1), None, None]),
        ("behind it", 257, 511, 1, [Some(1), Some(1), None, None]),
        (
            "the second delta's cell",
            258,
            111,
            1,
            [Some(1), Some(1), Some(2), None],
        ),
        ("behind it", 258, 112, 1, [Some(1), Some(1), Some(2), None]),
        ("a sector behind the log", 259, 0, 255, whole),
    ] {
        flip(&mut rack, &dev, sector, byte, bits)?;
        assert_eq!(rt;
            next_cells(alloc, &mut rack, &dev)?,
            want,
            "{row}, byte {byte}"
        );
        flip(&mut rack, &dev, sector, byte, bits)?;
    }
    assert_eq!(rt; devs.len(), 2);
    Ok(())
}

#[test]
fn a_changed_record_is_mended_or_counts_no_more(rt: HostRuntime) -> Result<(), Fail> {
    let alloc = rt.alloc();
    let first = DevPath::read(alloc, b"/dev/sim0")?;
    let second = DevPath::read(alloc, b"/dev/sim1")?;
    for (row, byte, bits) in [
        ("magic", 0, 1),
        ("generation", 15, 4),
        ("length", 23, 1),
        ("seal", 40, 16),
        ("serial", 71, 1),
        ("last byte", 72, 64),
    ] {
        for (one, other, generation) in [(true, false, 4), (false, true, 4), (true, true, 3)] {
            let (mut rack, devs, _) = pool_at(alloc, 4)?;
            if one {
                flip(&mut rack, &first, 16, byte, bits)?;
            }
            if other {
                flip(&mut rack, &second, 16, byte, bits)?;
            }
            let newest = found(alloc, &mut rack, &devs)?.map(|it| it.0);
            assert_eq!(rt; newest, Some(generation), "{row}, {one}, {other}");
            rack.mark();
            let again = found(alloc, &mut rack, &devs)?.map(|it| it.0);
            assert_eq!(rt; again, newest, "{row}, again");
            let written = rack
                .record()
                .calls
                .iter()
                .any(|call| call.kind == Kind::Write);
            assert!(rt; !written, "{row}: all is mended");
        }
    }
    Ok(())
}

/// A commit of generation 4, with a delta or a checkpoint, that stops at a call of a device where there are so many (the arm outlasts
/// the cut, so one that the commit doesn't meet must lie beyond the whole test); whether it was done, and what a start finds then.
fn stopped(
    alloc: Global,
    pick: Pick,
    has_committed: bool,
    path: &[u8],
    kind: Kind,
    skip: u64,
) -> Result<(bool, (u64, u64, usize), bool), Fail> {
    let (mut rack, devs, mut tail) = pool_at(alloc, 3)?;
    let dev = DevPath::read(alloc, path)?;
    rack.pick(pick);
    if rack.sectors(&dev).is_none() || rack.arm(&dev, kind, 0, 8_191, skip, How::Stop).is_err() {
        return Err("not armed".into());
    }
    let done = commit(alloc, &mut rack, &devs, &mut tail, 4, has_committed, 0, 2)?;
    rack.cycle();
    let Some((generation, next, mappings, mut tail)) = found(alloc, &mut rack, &devs)? else {
        return Err("no pool".into());
    };
    let goes_on = commit(
        alloc,
        &mut rack,
        &devs,
        &mut tail,
        generation.saturating_add(1),
        false,
        0,
        7,
    )?;
    let last = found(alloc, &mut rack, &devs)?.map(|it| (it.0, it.1, it.2));
    let good = goes_on && last == Some((generation.saturating_add(1), 7, 0));
    Ok((done, (generation, next, mappings), good))
}

#[test]
fn a_commit_that_stops_leaves_the_old_pool_or_the_new_one(rt: HostRuntime) -> Result<(), Fail> {
    let alloc = rt.alloc();
    let old = (3, 2, 1);
    for pick in [Pick::Old, Pick::New, Pick::Half] {
        for (has_committed, new) in [(true, (4, 3, 2)), (false, (4, 2, 0))] {
            for (path, kind, skip, want_done) in [
                ("/dev/sim0", Kind::Write, 0, false),
                ("/dev/sim0", Kind::Sync, 0, false),
                ("/dev/sim0", Kind::Write, 1, false),
                ("/dev/sim0", Kind::Sync, 1, false),
                ("/dev/sim1", Kind::Write, 0, false),
                ("/dev/sim1", Kind::Sync, 0, false),
                ("/dev/sim1", Kind::Write, 100, true),
            ] {
                let (done, left, goes_on) = stopped(
                    alloc,
                    pick,
                    has_committed,
                    path.as_bytes(),
                    kind,
                    skip,
                )?;
                let row = (pick, has_committed, path, kind, skip);
                assert_eq!(rt; done, want_done, "{row:?}");
                assert!(rt; left == new || (!done && left == old), "{row:?}: {left:?}");
                assert!(rt; path == "/dev/sim0" || left == new, "{row:?}: {left:?}");
                assert!(rt; goes_on, "{row:?}: the next commit");
            }
        }
    }
    Ok(())
}

#[test]
fn a_delta_is_read_from_its_sector(rt: HostRuntime) -> Result<(), Fail> {
    let alloc = rt.alloc();
    let (mut rack, _, tail) = pool_at(alloc, 3)?;
    let dev = DevPath::read(alloc, b"/dev/sim0")?;
    assert_eq!(rt; (tail.slot, tail.next), (0, 2));
    for (sector, want) in [(256, None), (257, Some(3)), (258, None)] {
        if rack.sectors(&dev) != Some(8_192) || sector >= 8_192 {
            return Err("no such sector".into());
        }
        let Ok(sealed) = read_sealed(alloc, &mut rack, &dev, sector, b"STRSDLT1") else {
            return Err("not read".into());
        };
        assert_eq!(rt; sealed.map(|it| it.0), want, "sector {sector}");
    }
    assert_eq!(rt; body_of(alloc, 1)?.len(), 196);
    Ok(())
}

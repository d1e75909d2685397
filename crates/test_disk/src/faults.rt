// The rack with faults: arms, picks, parts and the record.
use crate::racks::{fill_of, path, read, sync, write, write_apart};
use st_memrack::{How, Kind, MemRack, Pick};
use st_rack::Rack;
use st_units::DevPath;
use std::alloc::Global;
use std::test::Fail;

// A call, from a sector on, of so many sectors.
#[derive(Clone, Copy)]
enum Step {
    Read(u64, usize),
    Write(u64, usize),
    Sync,
    Cycle,
}

// Two blank devices of 64 sectors.
fn two(alloc: Global) -> Result<MemRack, Fail> {
    let first = path(alloc, "/dev/sim0")?;
    let second = path(alloc, "/dev/sim1")?;
    if first.bytes() == second.bytes() {
        return Err("one path".into());
    }
    Ok(MemRack::blank(alloc, &[(first, 64), (second, 64)])?)
}

fn arm(
    rack: &mut MemRack,
    dev: &DevPath,
    kind: Kind,
    first: u64,
    last: u64,
    skip: u64,
    how: How,
) -> bool {
    rack.sectors(dev).is_some() && rack.arm(dev, kind, first, last, skip, how).is_ok()
}

// Whether the step was done.
fn does(rack: &mut MemRack, dev: &DevPath, step: Step, work: &mut [u8]) -> bool {
    match step {
        Step::Read(sector, sectors) => {
            sectors <= 4
                && work.len() >= 2048
                && read(rack, dev, sector, &mut work[..512 * sectors])
        }
        Step::Write(sector, sectors) => {
            sectors <= 4 && work.len() >= 2048 && write(rack, dev, sector, &work[..512 * sectors])
        }
        Step::Sync => sync(rack, dev),
        Step::Cycle => {
            rack.cycle();
            true
        }
    }
}

fn fills(rack: &mut MemRack, dev: &DevPath) -> [Option<u8>; 4] {
    [
        fill_of(rack, dev, 0),
        fill_of(rack, dev, 1),
        fill_of(rack, dev, 2),
        fill_of(rack, dev, 3),
    ]
}

#[test]
fn memory_is_enough_for_each_call(rt: HostRuntime) -> Result<(), Fail> {
    let alloc = rt.alloc();
    let mut rack = two(alloc)?;
    let mut work = [7; 2048];
    assert!(rt; rack.devices() > 1 && rack.path_of(1).as_str() == "/dev/sim1");
    for (at, text) in ["/dev/sim0", "/dev/sim1"].iter().enumerate() {
        let dev = path(alloc, text)?;
        assert!(rt; rack.reserve(4).is_ok(), "at {at}");
        assert!(rt;
            arm(&mut rack, &dev, Kind::Sync, 0, 63, 2, How::Once),
            "at {at}"
        );
        assert!(rt;
            does(&mut rack, &dev, Step::Write(60, 4), &mut work),
            "at {at}"
        );
        assert_eq!(rt;
            write_apart(alloc, &mut rack, &dev, &work)?,
            Some(true),
            "at {at}"
        );
        assert!(rt; does(&mut rack, &dev, Step::Sync, &mut work), "at {at}");
        assert!(rt; does(&mut rack, &dev, Step::Cycle, &mut work), "at {at}");
        assert_eq!(rt; fill_of(&mut rack, &dev, 63), Some(7), "at {at}");
        assert_eq!(rt; fill_of(&mut rack, &dev, 59), Some(0), "at {at}");
    }
    assert_eq!(rt; (rack.devices(), rack.faults(), rack.short()), (2, 0, 0));
    Ok(())
}

// What a device of zeros holds in its first sectors after `sectors` of ones, settled, and as many of twos that fail or are cut off.
fn left(alloc: Global, pick: Pick, sectors: usize, fails: bool) -> Result<[Option<u8>; 4], Fail> {
    let mut rack = two(alloc)?;
    let dev = path(alloc, "/dev/sim1")?;
    let mut ones = [1; 2048];
    let mut twos = [2; 2048];
    let ready = does(&mut rack, &dev, Step::Write(0, sectors), &mut ones)
        && does(&mut rack, &dev, Step::Sync, &mut ones);
    if !ready {
        return Err("not written".into());
    }
    rack.pick(pick);
    if fails && !arm(&mut rack, &dev, Kind::Write, 0, 63, 0, How::Once) {
        return Err("not armed".into());
    }
    if does(&mut rack, &dev, Step::Write(0, sectors), &mut twos) == fails {
        return Err("the other outcome".into());
    }
    if !fails {
        rack.cycle();
    }
    Ok(fills(&mut rack, &dev))
}

#[test]
fn what_an_unsynced_write_leaves_is_picked(rt: HostRuntime) -> Result<(), Fail> {
    let alloc = rt.alloc();
    let rows = [
        (Pick::Old, 3, [1, 1, 1, 0]),
        (Pick::New, 3, [2, 2, 2, 0]),
        (Pick::Half, 3, [2, 2, 1, 0]),
        (Pick::Half, 4, [2, 2, 1, 1]),
        (Pick::Half, 2, [2, 1, 0, 0]),
        (Pick::Half, 1, [2, 0, 0, 0]),
    ];
    for (row, (pick, sectors, want)) in rows.iter().enumerate() {
        for fails in [true, false] {
            let holds = left(alloc, *pick, *sectors, fails)?;
            for i in 0..4 {
                assert_eq!(rt;
                    holds[i],
                    Some(want[i]),
                    "row {row}, fails {fails}, sector {i}"
                );
            }
        }
    }
    Ok(())
}

#[test]
fn an_arm_fires_at_its_call(rt: HostRuntime) -> Result<(), Fail> {
    let alloc = rt.alloc();
    let dev = path(alloc, "/dev/sim0")?;
    let mut work = [5; 2048];
    let calls = [
        Step::Write(0, 2),
        Step::Write(4, 4),
        Step::Sync,
        Step::Read(0, 1),
        Step::Write(0, 1),
        Step::Read(4, 2),
        Step::Cycle,
        Step::Write(0, 1),
    ];
    let rows = [
        (Kind::Write, 0, 1, 0, How::Once, "x-------"),
        (Kind::Write, 0, 1, 1, How::Once, "----x---"),
        (Kind::Write, 0, 1, 2, How::Once, "-------x"),
        (Kind::Write, 0, 1, 3, How::Once, "--------"),
        (Kind::Write, 1, 3, 0, How::Once, "x-------"),
        (Kind::Write, 2, 3, 0, How::Once, "--------"),
        (Kind::Write, 7, 9, 0, How::Once, "-x------"),
        (Kind::Sync, 63, 63, 0, How::Once, "--x-----"),
        (Kind::Read, 5, 5, 0, How::Once, "-----x--"),
        (Kind::Read, 0, 63, 1, How::Once, "-----x--"),
        (Kind::Write, 4, 7, 0, How::Stop, "-xxxxx--"),
        (Kind::Read, 0, 0, 0, How::Stop, "---xxx--"),
        (Kind::Write, 0, 63, 3, How::Stop, "-------x"),
    ];
    for (row, (kind, first, last, skip, how, want)) in rows.iter().enumerate() {
        let mut rack = two(alloc)?;
        assert!(rt;
            arm(&mut rack, &dev, *kind, *first, *last, *skip, *how),
            "row {row}"
        );
        let mut failed = 0u64;
        for (at, step) in calls.iter().enumerate() {
            let done = does(&mut rack, &dev, *step, &mut work);
            let fails = want.as_bytes().get(at) == Some(&b'x');
            assert_eq!(rt; done, !fails, "row {row}, call {at}");
            if fails {
                failed = failed.saturating_add(1);
            }
        }
        assert_eq!(rt; (rack.faults(), rack.short()), (failed, 0), "row {row}");
    }
    Ok(())
}

#[test]
fn a_device_takes_its_arms_and_writes_along(rt: HostRuntime) -> Result<(), Fail> {
    let alloc = rt.alloc();
    let mut rack = two(alloc)?;
    let near = path(alloc, "/dev/sim0")?;
    let far = path(alloc, "/dev/sim1")?;
    let mut work = [9; 2048];
    rack.pick(Pick::Half);
    assert!(rt; arm(&mut rack, &far, Kind::Write, 0, 0, 1, How::Once));
    assert!(rt; arm(&mut rack, &far, Kind::Read, 0, 1, 1, How::Once));
    assert!(rt; does(&mut rack, &far, Step::Write(0, 4), &mut work));
    assert_eq!(rt;
        write_apart(alloc, &mut rack, &far, &[8; 512])?,
        Some(false)
    );
    assert_eq!(rt; (rack.faults(), rack.devices()), (1, 2));
    assert_eq!(rt; fills(&mut rack, &far), [Some(8), None, Some(0), Some(0)]);
    assert_eq!(rt; (rack.faults(), fill_of(&mut rack, &far, 1)), (2, Some(9)));
    assert_eq!(rt; fills(&mut rack, &near), [Some(0); 4]);
    Ok(())
}

#[test]
fn reads_are_counted_and_calls_are_recorded(rt: HostRuntime) -> Result<(), Fail> {
    let alloc = rt.alloc();
    let mut rack = two(alloc)?;
    let near = path(alloc, "/dev/sim0")?;
    let far = path(alloc, "/dev/sim1")?;
    let mut work = [3; 2048];
    assert!(rt; does(&mut rack, &far, Step::Read(2, 1), &mut work));
    assert_eq!(rt; rack.record().calls.len(), 0);
    rack.mark();
    assert!(rt; arm(&mut rack, &near, Kind::Write, 8, 8, 0, How::Once));
    assert!(rt; !does(&mut rack, &near, Step::Write(6, 3), &mut work));
    assert!(rt; does(&mut rack, &far, Step::Read(1, 2), &mut work));
    assert!(rt; does(&mut rack, &far, Step::Sync, &mut work));
    assert_eq!(rt; (rack.reads_of(&near), rack.reads_of(&far)), (0, 2));
    let want = [
        ("/dev/sim0", Kind::Write, 6, 3, true),
        ("/dev/sim1", Kind::Read, 1, 2, false),
        ("/dev/sim1", Kind::Sync, 0, 0, false),
    ];
    assert_eq!(rt; (rack.record().calls.len(), rack.record().missed), (3, 0));
    for (row, (call, (dev, kind, sector, sectors, failed))) in rack
        .record()
        .calls
        .iter()
        .zip(want.iter())
        .enumerate()
    {
        assert_eq!(rt; call.dev.as_str(), *dev, "row {row}");
        assert_eq!(rt;
            (call.kind, call.sector, call.sectors, call.failed),
            (*kind, *sector, *sectors, *failed),
            "row {row}"
        );
    }
    rack.mark();
    assert_eq!(rt; rack.record().calls.len(), 0);
    Ok(())
}

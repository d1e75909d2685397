// The parts that a commit is made of, each called alone.
use crate::site::{
    body_of, commit_one, delta_of, flex_area, found, is_pool, pool_area, record_of, said_at,
    two_devices,
};
use st_commit::{commit, commit_checkpoint, commit_delta};
use st_deltalog::{Tail, append, begun_at, checkpoint, may_follow, sectors_of, serial_of};
use st_flexlog::encode;
use st_memrack::MemRack;
use st_units::{DevList, DevPath};
use std::alloc::Global;
use std::test::Fail;

#[test]
fn a_body_takes_whole_sectors_with_its_head(rt: HostRuntime) -> Result<(), Fail> {
    let bytes = vec![in rt.alloc(); 0u8; 961]?;
    for (len, want) in [(0, 1), (448, 1), (449, 2), (960, 2), (961, 3)] {
        if len > bytes.len() {
            return Err("too few bytes".into());
        }
        assert_eq!(rt; sectors_of(&bytes.as_slice()[..len]), want, "{len} bytes");
    }
    Ok(())
}

#[test]
fn a_body_begins_with_its_serial(rt: HostRuntime) -> Result<(), Fail> {
    let bytes = [1, 0, 0, 0, 0, 0, 2, 3, 9];
    for (len, want) in [
        (0, 0),
        (7, 0),
        (8, 72_057_594_037_928_451),
        (9, 72_057_594_037_928_451),
    ] {
        assert_eq!(rt; serial_of(&bytes[..len]), want, "{len} bytes");
    }
    Ok(())
}

#[test]
fn a_delta_follows_where_its_three_conditions_hold(rt: HostRuntime) -> Result<(), Fail> {
    for (same_rows, has_committed, next, want) in [
        (true, true, 1, true),
        (true, true, 1_663, true),
        (true, true, 1_664, false),
        (false, true, 1, false),
        (true, false, 1, false),
        (false, false, 1, false),
    ] {
        let follows = may_follow(
            &flex_area(),
            &Tail { slot: 1, next },
            same_rows,
            has_committed,
        );
        assert_eq!(rt; follows, want, "{same_rows}, {has_committed}, {next}");
    }
    Ok(())
}

/// Writes a checkpoint of pool 1 that says this next cell.
fn put_checkpoint(
    alloc: Global,
    rack: &mut MemRack,
    dev: &DevPath,
    slot: usize,
    generation: u64,
    next_cell: u64,
) -> Result<Tail, Fail> {
    let flex = flex_area();
    let body = body_of(alloc, next_cell)?;
    if !flex.area.lies_on(rack, dev)
        || slot > 1
        || generation == 0
        || generation > 100
        || body.len() > 448
    {
        return Err("no such checkpoint".into());
    }
    let mut work = [0; 512];
    let tail = checkpoint(rack, dev, &flex, slot, generation, body.items(), &mut work)?;
    Ok(tail)
}

/// The slot and the generation of the checkpoint that is taken.
fn taken(
    alloc: Global,
    rack: &mut MemRack,
    dev: &DevPath,
    serial: u64,
    generation: u64,
) -> Result<Option<(usize, u64)>, Fail> {
    let flex = flex_area();
    if !flex.area.lies_on(rack, dev) {
        return Err("no device".into());
    }
    let begun = begun_at(alloc, rack, dev, &flex, serial, generation)?;
    Ok(begun.map(|begun| (begun.slot, begun.generation)))
}

#[test]
fn the_latest_checkpoint_of_the_serial_is_taken(rt: HostRuntime) -> Result<(), Fail> {
    let alloc = rt.alloc();
    let dev = DevPath::read(alloc, b"/dev/sim0")?;
    for (row, first, second, serial, generation, want) in [
        ("none", None, None, 1, 9, None),
        ("slot 0", Some(4), None, 1, 9, Some((0, 4))),
        ("slot 1", None, Some(4), 1, 4, Some((1, 4))),
        ("too late", Some(4), None, 1, 3, None),
        ("another serial", Some(4), Some(5), 2, 9, None),
        ("the later one", Some(5), Some(4), 1, 9, Some((0, 5))),
        (
            "the later one in slot 1",
            Some(4),
            Some(5),
            1,
            9,
            Some((1, 5)),
        ),
        ("one is too late", Some(4), Some(7), 1, 6, Some((0, 4))),
        ("a tie", Some(4), Some(4), 1, 9, Some((1, 4))),
    ] {
        let (mut rack, _) = two_devices(alloc)?;
        for (slot, of) in [(0, first), (1, second)] {
            if let Some(of) = of {
                let tail = put_checkpoint(alloc, &mut rack, &dev, slot, of, 1)?;
                assert_eq!(rt; (tail.slot, tail.next), (slot, 1), "{row}");
            }
        }
        let got = taken(alloc, &mut rack, &dev, serial, generation)?;
        assert_eq!(rt; got, want, "{row}");
    }
    Ok(())
}

/// Puts a delta behind the log that maps block 1 to this cell.
fn put_delta(
    rack: &mut MemRack,
    dev: &DevPath,
    tail: &mut Tail,
    generation: u64,
    cell: u64,
) -> Result<(), Fail> {
    let flex = flex_area();
    let delta = encode(&delta_of(1, cell));
    if !flex.area.lies_on(rack, dev)
        || tail.slot > 1
        || tail.next > 1_000
        || generation == 0
        || generation > 100
        || delta.bytes().len() > 448
    {
        return Err("no such delta".into());
    }
    let mut work = [0; 512];
    Ok(append(rack, dev, &flex, tail, generation, delta.bytes(), &mut work)?)
}

#[test]
fn a_delta_goes_behind_the_log(rt: HostRuntime) -> Result<(), Fail> {
    let alloc = rt.alloc();
    let dev = DevPath::read(alloc, b"/dev/sim0")?;
    let (mut rack, _) = two_devices(alloc)?;
    let mut tail = put_checkpoint(alloc, &mut rack, &dev, 0, 4, 1)?;
    for (generation, cell, next) in [(5, 1, 2), (6, 2, 3), (7, 3, 4)] {
        put_delta(&mut rack, &dev, &mut tail, generation, cell)?;
        assert_eq!(rt;
            (tail.slot, tail.next),
            (0, next),
            "generation {generation}"
        );
        let Some((state, behind)) = said_at(alloc, &mut rack, &dev, generation)? else {
            return Err("no log".into());
        };
        assert_eq!(rt;
            state.next_cell,
            cell.saturating_add(1),
            "generation {generation}"
        );
        assert_eq!(rt; behind.next, next, "generation {generation}, read");
    }
    assert!(rt;
        said_at(alloc, &mut rack, &dev, 8)?.is_none(),
        "generation 8"
    );
    Ok(())
}

/// The generation and the next cell that a start finds.
fn stands(alloc: Global, rack: &mut MemRack, devs: &DevList) -> Result<Option<(u64, u64)>, Fail> {
    Ok(found(alloc, rack, devs)?.map(|it| (it.0, it.1)))
}

#[test]
fn each_kind_of_commit_may_be_made_alone(rt: HostRuntime) -> Result<(), Fail> {
    let alloc = rt.alloc();
    let (mut rack, devs) = two_devices(alloc)?;
    let (pool, flex) = (pool_area(), flex_area());
    let first = commit_one(alloc, &mut rack, &devs)?;
    assert_eq!(rt; (first.slot, first.next), (1, 1), "the first commit");
    let body = body_of(alloc, 1)?;
    if !is_pool(&rack, &devs, &pool, &flex) || body.len() > 448 {
        return Err("no pool".into());
    }
    let (mut log_work, mut work) = ([0; 512], [0; 512]);
    let mut tail = commit_checkpoint(
        &mut rack,
        &devs,
        &pool,
        &flex,
        0,
        2,
        body.items(),
        &record_of(2),
        &mut log_work,
        &mut work,
    )?;
    assert_eq!(rt; (tail.slot, tail.next), (0, 1), "a checkpoint");
    assert_eq!(rt;
        stands(alloc, &mut rack, &devs)?,
        Some((2, 1)),
        "a checkpoint"
    );
    let delta = encode(&delta_of(1, 1));
    if !is_pool(&rack, &devs, &pool, &flex)
        || tail.slot > 1
        || tail.next > 1_000
        || delta.bytes().len() > 448
    {
        return Err("no pool any more".into());
    }
    commit_delta(
        &mut rack,
        &devs,
        &pool,
        &flex,
        &mut tail,
        3,
        delta.bytes(),
        &record_of(3),
        &mut log_work,
        &mut work,
    )?;
    assert_eq!(rt; (tail.slot, tail.next), (0, 2), "a delta");
    assert_eq!(rt; stands(alloc, &mut rack, &devs)?, Some((3, 2)), "a delta");
    put_delta(&mut rack, devs.at(0), &mut tail, 4, 2)?;
    assert_eq!(rt;
        stands(alloc, &mut rack, &devs)?,
        Some((3, 2)),
        "a delta without its record"
    );
    if !is_pool(&rack, &devs, &pool, &flex) {
        return Err("no pool any more".into());
    }
    commit(&mut rack, &devs, &pool, 4, &record_of(4), &mut work)?;
    assert_eq!(rt;
        stands(alloc, &mut rack, &devs)?,
        Some((4, 3)),
        "the record alone"
    );
    Ok(())
}

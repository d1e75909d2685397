// The calls of a pool: what they answer, which sectors they write, and what stands there.
use crate::bytes;
use crate::site::{Stop, ready, rename, stands};
use st_memrack::{Kind, MemRack, Pick};
use st_model::{Cell, Env, Given, Identity, Named, ShownMode};
use st_pool::{Ended, Halted, Pool, PoolReply};
use st_rack::Rack;
use st_units::{Cause, DevList, DevRow, Name, NoMemory, PoolSerial};
use std::alloc::Global;
use std::test::Fail;

/// The writes since the mark, each with a sync of its device behind it: the device and the sector.
fn are_written(rack: &MemRack, want: &[(&str, u64)]) -> bool {
    let calls = &rack.record().calls;
    if calls.len() != 2 * want.len() || rack.record().missed > 0 {
        return false;
    }
    for (i, (dev, sector)) in want.iter().enumerate() {
        let (Some(write), Some(sync)) = (calls.get(2 * i), calls.get(2 * i + 1)) else {
            return false;
        };
        if (write.kind, write.sector, write.sectors) != (Kind::Write, *sector, 1)
            || sync.kind != Kind::Sync
            || write.dev.as_str() != *dev
            || sync.dev.as_str() != *dev
        {
            return false;
        }
    }
    true
}

/// The writes of a pool that is made, renamed and ended.
const WRITES: &[(&str, u64)] = &[
    ("/dev/sim0", 9),
    ("/dev/sim0", 1),
    ("/dev/sim1", 9),
    ("/dev/sim1", 1),
    ("/dev/sim0", 1_920),
    ("/dev/sim0", 80),
    ("/dev/sim1", 80),
    ("/dev/sim0", 256),
    ("/dev/sim0", 16),
    ("/dev/sim1", 16),
    ("/dev/sim0", 257),
    ("/dev/sim0", 80),
    ("/dev/sim1", 80),
];

/// Whether the pool was changed, by its first serial.
fn is_changed(answer: &PoolReply) -> bool {
    let is_pool = match &answer.reply.result {
        Some(Given::Changed(true, Some(Identity::Pool(serial)))) => serial.number() == 1,
        _ => false,
    };
    is_pool && answer.reply.code == 0 && answer.twin.code == 0 && !answer.low
}

/// Renames the pool twice, to the same name.
fn renamed(alloc: Global, pool: &mut Pool<MemRack>, new: Name, same: Name) -> bool {
    let (Some(answer), Some(again)) = (rename(alloc, pool, new), rename(alloc, pool, same)) else {
        return false;
    };
    let unchanged = match &again.reply.result {
        Some(Given::Changed(false, None)) => true,
        _ => false,
    };
    is_changed(&answer) && unchanged
}

#[test]
fn a_pool_is_made(rt: HostRuntime) -> Result<(), Fail> {
    let alloc = rt.alloc();
    let mut pool = ready(alloc, None, Pick::New)?;
    let info = pool.view();
    let shows = info.name.as_str() == "tank"
        && info.serial.number() == 1
        && info.mode == ShownMode::Up
        && info.devs.len() == 2
        && info.room == 98
        && info.allocated == 32
        && info.used == 0
        && info.fs_limit == 100
        && info.overprovisioning;
    let spare = Pool::info(&mut pool).is_some();
    let other = Pool::info(&mut pool).is_some();
    let named = pool.name().as_str() == "tank";
    let faults = Pool::faults(&pool);
    let mut rack = pool.stop().part();
    assert!(rt; shows, "its info");
    assert!(rt;
        named && spare && !other && faults == 0,
        "its name, its spare and its faults"
    );
    for (path, sector, text) in [
        ("/dev/sim0", 1, bytes::HEADER),
        ("/dev/sim0", 9, bytes::HEADER),
        ("/dev/sim1", 1, bytes::HEADER),
        ("/dev/sim1", 9, bytes::HEADER),
        ("/dev/sim0", 1_920, bytes::FIRST_LOG),
        ("/dev/sim0", 80, bytes::FIRST_RECORD),
        ("/dev/sim1", 80, bytes::FIRST_RECORD),
        ("/dev/sim0", 16, bytes::NOTHING),
        ("/dev/sim1", 256, bytes::NOTHING),
    ] {
        assert!(rt;
            stands(alloc, &mut rack, path, sector, text)?,
            "{path}, sector {sector}"
        );
    }
    Ok(())
}

#[test]
fn a_pool_is_renamed_and_ends(rt: HostRuntime) -> Result<(), Fail> {
    let alloc = rt.alloc();
    let (new, same) = (Name::read(alloc, b"pond")?, Name::read(alloc, b"pond")?);
    let mut pool = ready(alloc, None, Pick::New)?;
    let spent = Pool::info(&mut pool).is_some();
    let is_renamed = renamed(alloc, &mut pool, new, same);
    let shows = pool.view().name.as_str() == "pond";
    let spare = match Cell::info(&mut pool) {
        Some(info) => info.value().name().as_str() == "pond",
        None => false,
    };
    let mut rack = match pool.end(alloc) {
        Ended::Gone(rack) => rack,
        Ended::Kept(pool, _) => pool.stop().part(),
        Ended::Broken(pool) => pool.stop().part(),
    };
    assert!(rt; spent && is_renamed && shows && spare, "its name");
    assert!(rt; are_written(&rack, WRITES), "what is written");
    for (path, sector, text) in [
        ("/dev/sim0", 1, bytes::HEADER),
        ("/dev/sim0", 16, bytes::RENAMED_RECORD),
        ("/dev/sim1", 16, bytes::RENAMED_RECORD),
        ("/dev/sim0", 80, bytes::ENDED_RECORD),
        ("/dev/sim1", 80, bytes::ENDED_RECORD),
        ("/dev/sim0", 256, bytes::RENAMED_LOG),
        ("/dev/sim0", 257, bytes::ENDED_DELTA),
        ("/dev/sim0", 1_920, bytes::FIRST_LOG),
    ] {
        assert!(rt;
            stands(alloc, &mut rack, path, sector, text)?,
            "{path}, sector {sector}"
        );
    }
    Ok(())
}

/// Whether a device failed from the first write on.
fn is_fault(answer: Option<&PoolReply>) -> bool {
    let Some(answer) = answer else {
        return false;
    };
    let cause = match &answer.reply.cause {
        Some(Cause::DeviceFault) => answer.reply.code == 27,
        _ => false,
    };
    let met = match &answer.env {
        Env::FaultWrite => true,
        _ => false,
    };
    cause && met
}

/// The cause of an answer of a pool that is down: that, with the pool's name.
fn is_maintenance(answer: &PoolReply) -> bool {
    match &answer.reply.cause {
        Some(Cause::Maintenance(name)) => name.as_str() == "tank" && answer.reply.code == 10,
        _ => false,
    }
}

#[test]
fn a_pool_that_is_down_calls_no_device(rt: HostRuntime) -> Result<(), Fail> {
    let alloc = rt.alloc();
    let stop = Stop {
        path: "/dev/sim0",
        kind: Kind::Write,
        skip: 4,
    };
    let new = Name::read(alloc, b"pond")?;
    let mut pool = ready(alloc, Some(stop), Pick::New)?;
    let failed = rename(alloc, &mut pool, new);
    let is_down = pool.view().mode == ShownMode::Down && pool.view().name.as_str() == "tank";
    let faults = Cell::faults(&pool);
    let (ended, pool) = match pool.end(alloc) {
        Ended::Kept(pool, answer) => (is_maintenance(&answer), pool),
        Ended::Broken(pool) => (false, pool),
        Ended::Gone(_) => return Err("it is gone".into()),
    };
    let halted = pool.stop();
    let kept = halted.faults();
    let rack = halted.part();
    assert!(rt; is_fault(failed.as_ref()), "the fault");
    assert!(rt; ended, "refused afterwards");
    assert!(rt; is_down && faults == 1 && kept == 1, "down, with a fault");
    assert!(rt;
        rack.record().calls.len() == 15 && rack.faults() == 1,
        "the calls of the devices"
    );
    Ok(())
}

fn paths(alloc: Global, rows: &[DevRow]) -> Result<DevList, NoMemory> {
    let mut devs = DevList::make(alloc);
    for row in rows {
        devs.push(row.path.copy()?)?;
    }
    Ok(devs)
}

#[test]
fn a_pool_that_was_found_is_at_rest(rt: HostRuntime) -> Result<(), Fail> {
    let alloc = rt.alloc();
    let pool = ready(alloc, None, Pick::New)?;
    let devs = paths(alloc, pool.view().devs.items());
    let rack = pool.stop().part();
    let mut halted = Halted::found(PoolSerial::of(1), devs?, rack);
    halted.cycle();
    let faults = halted.faults();
    let mut rack = halted.part();
    assert!(rt; faults == 0);
    assert!(rt;
        stands(alloc, &mut rack, "/dev/sim0", 80, bytes::FIRST_RECORD)?,
        "its record"
    );
    Ok(())
}

// A device stops at each write and each sync of a pool that is made, renamed and ended.
use crate::site::{self, Stop, make};
use st_assemble::found;
use st_memrack::{Kind, MemRack, Pick};
use st_pool::{Ended, Halted, Made, Pool};
use st_units::Name;
use std::alloc::Global;
use std::test::Fail;

/// How far the pool came: which call a device failed in, and how many faults the pool counts then.
struct Stopped {
    call: &'static str,
    halted: Halted<MemRack>,
}

/// Makes the pool tank, renames it to pond and ends it, until a device fails.
fn run(alloc: Global, stop: Stop, pick: Pick) -> Result<Stopped, Fail> {
    match make(alloc, Some(stop), pick)? {
        Made::Ready(pool) => rename(alloc, pool),
        Made::Broken(pool) => Ok(Stopped {
            call: "make",
            halted: pool.stop(),
        }),
        Made::NoMemory(_) => Err("no memory".into()),
    }
}

fn rename(alloc: Global, mut pool: Pool<MemRack>) -> Result<Stopped, Fail> {
    let new = Name::read(alloc, b"pond");
    let Ok(new) = new else {
        pool.stop().part();
        return Err("no name".into());
    };
    let is_renamed = match site::rename(alloc, &mut pool, new) {
        Some(answer) => answer.reply.code == 0,
        None => false,
    };
    if is_renamed {
        return end(alloc, pool);
    }
    Ok(Stopped {
        call: "rename",
        halted: pool.stop(),
    })
}

fn end(alloc: Global, pool: Pool<MemRack>) -> Result<Stopped, Fail> {
    match pool.end(alloc) {
        Ended::Broken(pool) => Ok(Stopped {
            call: "end",
            halted: pool.stop(),
        }),
        Ended::Kept(pool, _) => {
            pool.stop().part();
            Err("kept".into())
        }
        Ended::Gone(_) => Err("no stop".into()),
    }
}

/// The names of the pools that the devices stand for.
fn left(alloc: Global, mut rack: MemRack) -> Result<Option<Name>, Fail> {
    let Ok(all) = found(alloc, &mut rack) else {
        return Err("foreign".into());
    };
    match all.pools.items() {
        [] => Ok(None),
        [pool] => Ok(Some(pool.name.copy()?)),
        _ => Err("two pools".into()),
    }
}

/// What a session leaves after a stop, and what it should leave.
fn row(
    alloc: Global,
    stop: Stop,
    pick: Pick,
    call: &str,
    before: &str,
    after: &str,
    is_done: bool,
) -> Result<bool, Fail> {
    let Stopped {
        call: met,
        mut halted,
    } = run(alloc, stop, pick)?;
    let faults = halted.faults();
    halted.cycle();
    let name = left(alloc, halted.part())?;
    let want = if is_done { after } else { before };
    let is_so = match &name {
        Some(name) => name.as_str() == want,
        None => want.is_empty(),
    };
    Ok(is_so && met == call && faults == 1)
}

#[test]
fn a_stop_leaves_a_pool_before_or_after(rt: HostRuntime) -> Result<(), Fail> {
    let alloc = rt.alloc();
    for pick in [Pick::Old, Pick::New, Pick::Half] {
        for kind in [Kind::Write, Kind::Sync] {
            // The calls of each device, with the one that writes the record there.
            for (path, call, first, last, record, before, after) in [
                ("/dev/sim0", "make", 0, 3, 3, "", "tank"),
                ("/dev/sim0", "rename", 4, 5, 5, "tank", "pond"),
                ("/dev/sim0", "end", 6, 7, 7, "pond", ""),
                ("/dev/sim1", "make", 0, 1, 9, "", "tank"),
                ("/dev/sim1", "make", 2, 2, 0, "", "tank"),
                ("/dev/sim1", "rename", 3, 3, 0, "tank", "pond"),
                ("/dev/sim1", "end", 4, 4, 0, "pond", ""),
            ] {
                for skip in first..last + 1 {
                    let is_done = skip > record || (skip == record && pick != Pick::Old);
                    let good = row(
                        alloc,
                        Stop { path, kind, skip },
                        pick,
                        call,
                        before,
                        after,
                        is_done,
                    )?;
                    assert!(rt; good, "{path}, {kind:?} {skip}, {pick:?}: {call}");
                }
            }
        }
    }
    Ok(())
}

// A device stops while a pool is started after another stop.
ghost use Rattle.std.specs.Prelude.{IfOk};
ghost use Rattle.st_memrack.specs.MemRack.{mem_devs, mem_moment, mem_state_at};
ghost use Rattle.st_pool.specs.Starts.{HaltsSome};

use crate::site::Stop;
use crate::starts::{cut, run, woken};
use st_memrack::{Kind, MemRack, Pick};
use st_pool::{Halted, Pool, Started};
use st_units::Name;
use std::alloc::Global;
use std::test::Fail;

/// Starts a pool while a device fails.
fn failed(alloc: Global, halted: Halted<MemRack>) -> Result<Halted<MemRack>, Fail>
    requires { HaltsSome mem_devs mem_moment mem_state_at halted }
    ensures { IfOk result (λ halted. HaltsSome mem_devs mem_moment mem_state_at halted) }
{
    match Pool::start(alloc, halted) {
        Started::Fault(halted) => Ok(halted),
        Started::Up(pool, _) => {
            pool.stop().part();
            Err("no second stop".into())
        }
        Started::Vanished(_, _) => Err("no second stop".into()),
        Started::NoMemory(halted) => {
            halted.part();
            Err("no memory".into())
        }
    }
}

/// What a start says after a stop, and one more in an earlier start.
fn twice(alloc: Global, first: Stop, second: Stop, pick: Pick) -> Result<String, Fail> {
    let lake = Name::read(alloc, b"lake")?;
    let halted = cut(run(alloc, first, Some(second), pick)?);
    let halted = failed(alloc, halted)?;
    woken(alloc, cut(halted), lake)
}

/// A stop, and the calls of one device in the start after it, each of which is a second stop; and what the next start says.
struct Second {
    pick: Pick,
    path: &'static str,
    kind: Kind,
    skip: u64,
    device: &'static str,
    of: Kind,
    first: u64,
    last: u64,
    want: &'static str,
}

const SECOND: [Second; 21] = [
    // The making stops at the log, and the start clears both devices.
    Second {
        pick: Pick::Old,
        path: "/dev/sim0",
        kind: Kind::Write,
        skip: 2,
        device: "/dev/sim0",
        of: Kind::Sync,
        first: 2,
        last: 6,
        want: "gone before",
    },
    Second {
        pick: Pick::Old,
        path: "/dev/sim0",
        kind: Kind::Write,
        skip: 2,
        device: "/dev/sim0",
        of: Kind::Write,
        first: 3,
        last: 6,
        want: "gone before",
    },
    Second {
        pick: Pick::Old,
        path: "/dev/sim0",
        kind: Kind::Write,
        skip: 2,
        device: "/dev/sim1",
        of: Kind::Sync,
        first: 2,
        last: 6,
        want: "gone before",
    },
    Second {
        pick: Pick::Old,
        path: "/dev/sim0",
        kind: Kind::Write,
        skip: 2,
        device: "/dev/sim1",
        of: Kind::Write,
        first: 2,
        last: 5,
        want: "gone before",
    },
    Second {
        pick: Pick::Old,
        path: "/dev/sim0",
        kind: Kind::Write,
        skip: 2,
        device: "/dev/sim1",
        of: Kind::Read,
        first: 0,
        last: 1,
        want: "gone before",
    },
    Second {
        pick: Pick::New,
        path: "/dev/sim0",
        kind: Kind::Write,
        skip: 2,
        device: "/dev/sim0",
        of: Kind::Write,
        first: 3,
        last: 6,
        want: "gone before",
    },
    Second {
        pick: Pick::New,
        path: "/dev/sim0",
        kind: Kind::Write,
        skip: 2,
        device: "/dev/sim1",
        of: Kind::Write,
        first: 2,
        last: 5,
        want: "gone before",
    },
    Second {
        pick: Pick::Half,
        path: "/dev/sim0",
        kind: Kind::Write,
        skip: 2,
        device: "/dev/sim0",
        of: Kind::Write,
        first: 3,
        last: 6,
        want: "gone before",
    },
    // The rename stops at the second record, which the start writes.
    Second {
        pick: Pick::Old,
        path: "/dev/sim1",
        kind: Kind::Write,
        skip: 3,
        device: "/dev/sim0",
        of: Kind::Sync,
        first: 6,
        last: 6,
        want: "up pond after 2",
    },
    Second {
        pick: Pick::Old,
        path: "/dev/sim1",
        kind: Kind::Write,
        skip: 3,
        device: "/dev/sim1",
        of: Kind::Sync,
        first: 3,
        last: 4,
        want: "up pond after 2",
    },
    Second {
        pick: Pick::Old,
        path: "/dev/sim1",
        kind: Kind::Write,
        skip: 3,
        device: "/dev/sim1",
        of: Kind::Write,
        first: 4,
        last: 4,
        want: "up pond after 2",
    },
    Second {
        pick: Pick::Old,
        path: "/dev/sim1",
        kind: Kind::Write,
        skip: 3,
        device: "/dev/sim0",
        of: Kind::Read,
        first: 0,
        last: 1,
        want: "up pond after 2",
    },
    // It stops at the sync of the first record: the start writes the second one, or nothing where the first is lost.
    Second {
        pick: Pick::New,
        path: "/dev/sim0",
        kind: Kind::Sync,
        skip: 5,
        device: "/dev/sim1",
        of: Kind::Write,
        first: 3,
        last: 3,
        want: "up pond after 2",
    },
    Second {
        pick: Pick::New,
        path: "/dev/sim0",
        kind: Kind::Sync,
        skip: 5,
        device: "/dev/sim1",
        of: Kind::Sync,
        first: 3,
        last: 4,
        want: "up pond after 2",
    },
    Second {
        pick: Pick::Half,
        path: "/dev/sim0",
        kind: Kind::Sync,
        skip: 5,
        device: "/dev/sim1",
        of: Kind::Write,
        first: 3,
        last: 3,
        want: "up pond after 2",
    },
    Second {
        pick: Pick::Old,
        path: "/dev/sim0",
        kind: Kind::Sync,
        skip: 5,
        device: "/dev/sim1",
        of: Kind::Sync,
        first: 3,
        last: 3,
        want: "up tank before 2",
    },
    // So it is with the end.
    Second {
        pick: Pick::Old,
        path: "/dev/sim1",
        kind: Kind::Write,
        skip: 4,
        device: "/dev/sim0",
        of: Kind::Sync,
        first: 8,
        last: 8,
        want: "gone after",
    },
    Second {
        pick: Pick::Old,
        path: "/dev/sim1",
        kind: Kind::Write,
        skip: 4,
        device: "/dev/sim1",
        of: Kind::Sync,
        first: 4,
        last: 5,
        want: "gone after",
    },
    Second {
        pick: Pick::Old,
        path: "/dev/sim1",
        kind: Kind::Write,
        skip: 4,
        device: "/dev/sim1",
        of: Kind::Write,
        first: 5,
        last: 5,
        want: "gone after",
    },
    Second {
        pick: Pick::New,
        path: "/dev/sim0",
        kind: Kind::Sync,
        skip: 7,
        device: "/dev/sim1",
        of: Kind::Write,
        first: 4,
        last: 4,
        want: "gone after",
    },
    Second {
        pick: Pick::Half,
        path: "/dev/sim0",
        kind: Kind::Sync,
        skip: 7,
        device: "/dev/sim1",
        of: Kind::Sync,
        first: 4,
        last: 5,
        want: "gone after",
    },
];

/// Fails where a start after the second stop says something else.
fn check_second(alloc: Global, row: &Second) -> Result<(), Fail> {
    let (path, kind, skip, device, of) = (row.path, row.kind, row.skip, row.device, row.of);
    let (pick, want) = (row.pick, row.want);
    for call in row.first..row.last.saturating_add(1) {
        let first = Stop { path, kind, skip };
        let second = Stop {
            path: device,
            kind: of,
            skip: call,
        };
        let got = twice(alloc, first, second, pick)?;
        if got.as_str() != want {
            return Err(format!(in alloc;
                "{first:?}, {second:?}, {pick:?}: {got}, not {want}"
            )?.into());
        }
    }
    Ok(())
}

#[test]
fn a_stop_in_a_start_changes_nothing(rt: HostRuntime) -> Result<(), Fail> {
    let alloc = rt.alloc();
    for row in &SECOND {
        check_second(alloc, row)?;
    }
    Ok(())
}

// What the engine begins on, and where it doesn't.
use crate::bytes::{P, put_header, put_pool, put_record};
use crate::engine::run;
use crate::said::Line;
use crate::site::{Failing, arm, calls_of, three};
use raw_records::Rec;
use st_memrack::{How, Kind, MemRack, Pick};
use st_rack::Rack;
use std::alloc::Global;
use std::process::Abort;
use std::sync::Wait;
use std::test::Fail;

/// What a report shows, or why the engine doesn't begin.
fn shown(
    rt: &(impl Wait + Abort),
    alloc: Global,
    rack: MemRack,
) -> Result<(String, MemRack), Fail> {
    run(rt, alloc, rack, &[Line::Report])
}

/// Pool 7, q, on the second device.
const Q: Rec = Rec {
    serial: 7,
    name: "q",
    devs: &["/dev/sim1"],
    ..P
};

/// Two pools.
fn several(alloc: Global) -> Result<MemRack, Fail> {
    let mut rack = three(alloc)?;
    put_pool(alloc, &mut rack, "/dev/sim0", 4, &P)?;
    put_pool(alloc, &mut rack, "/dev/sim1", 2, &Q)?;
    Ok(rack)
}

#[test]
fn the_engine_begins_on_blank_devices(rt: HostRuntime) -> Result<(), Fail> {
    let alloc = rt.alloc();
    let (said, rack) = shown(&rt, alloc, three(alloc)?)?;
    assert_eq!(rt;
        said.as_str(),
        "free /dev/sim0 /dev/sim1 /dev/sim2; next 1;. "
    );
    assert_eq!(rt; rack.devices(), 3);
    Ok(())
}

#[test]
fn the_engine_begins_on_pools(rt: HostRuntime) -> Result<(), Fail> {
    let alloc = rt.alloc();
    let (said, mut rack) = shown(&rt, alloc, several(alloc)?)?;
    assert_eq!(rt;
        said.as_str(),
        "free /dev/sim2; next 8; 1 p stopped; 7 q stopped;. "
    );
    assert_eq!(rt; rack.devices(), 3);
    // A further device of a pool that isn't there: the pool is incomplete. Its serial tells which is the next.
    let wide = Rec {
        serial: 9,
        name: "wide",
        devs: &["/dev/sim2", "/dev/sim3"],
        ..P
    };
    put_header(alloc, &mut rack, "/dev/sim2", 9)?;
    put_record(alloc, &mut rack, "/dev/sim2", 5, &wide)?;
    let (said, _) = shown(&rt, alloc, rack)?;
    assert_eq!(rt;
        said.as_str(),
        "free; next 10; 1 p stopped; 7 q stopped; 9 wide incomplete;. "
    );
    Ok(())
}

/// Pool 1, p, on two devices, of which the first alone has the record that it is gone.
fn half_gone(alloc: Global) -> Result<MemRack, Fail> {
    let mut rack = three(alloc)?;
    let pair = Rec {
        devs: &["/dev/sim0", "/dev/sim1"],
        ..P
    };
    put_pool(alloc, &mut rack, "/dev/sim0", 4, &pair)?;
    put_header(alloc, &mut rack, "/dev/sim1", 1)?;
    put_record(alloc, &mut rack, "/dev/sim1", 4, &pair)?;
    put_record(alloc, &mut rack, "/dev/sim0", 5, &Rec { flags: 7, ..pair })?;
    Ok(rack)
}

#[test]
fn a_pool_that_is_gone_is_finished(rt: HostRuntime) -> Result<(), Fail> {
    let alloc = rt.alloc();
    let mut rack = half_gone(alloc)?;
    rack.mark();
    let want = "free /dev/sim0 /dev/sim1 /dev/sim2; next 2;. ";
    let (said, mut rack) = shown(&rt, alloc, rack)?;
    assert_eq!(rt; said.as_str(), want);
    rack.mark();
    let (said, rack) = shown(&rt, alloc, rack)?;
    assert_eq!(rt; said.as_str(), want);
    assert_eq!(rt;
        calls_of(&rack, "/dev/sim1", Kind::Write),
        0,
        "it was written before"
    );
    Ok(())
}

#[test]
fn the_engine_does_not_begin_on_foreign_devices(rt: HostRuntime) -> Result<(), Fail> {
    let alloc = rt.alloc();
    for (name, serial, want) in [
        ("p", 7, "foreign 7"),
        ("p", 1, "foreign 1"),
        ("", 7, "foreign 7"),
        (
            "q",
            7,
            "free /dev/sim2; next 8; 1 p stopped; 7 q stopped;. ",
        ),
    ] {
        let mut rack = three(alloc)?;
        put_pool(alloc, &mut rack, "/dev/sim0", 4, &P)?;
        put_pool(alloc, &mut rack, "/dev/sim1", 4, &Rec { serial, name, ..Q })?;
        let (said, rack) = shown(&rt, alloc, rack)?;
        assert_eq!(rt; said.as_str(), want, "{name} of {serial}");
        assert_eq!(rt; rack.devices(), 3, "{name} of {serial}");
    }
    Ok(())
}

/// A rack with two pools, or one with a pool that is half gone.
fn rack_of(alloc: Global, is_gone: bool) -> Result<MemRack, Fail> {
    if is_gone {
        half_gone(alloc)
    } else {
        several(alloc)
    }
}

/// How many calls of this kind a device gets while the engine begins.
fn counted(
    rt: &(impl Wait + Abort),
    alloc: Global,
    is_gone: bool,
    path: &str,
    kind: Kind,
) -> Result<u64, Fail> {
    let mut rack = rack_of(alloc, is_gone)?;
    rack.mark();
    let (_, rack) = shown(rt, alloc, rack)?;
    Ok(calls_of(&rack, path, kind))
}

/// Whether a failing call is told as a fault, and the engine begins as it would have once the power was cut.
fn is_told(
    rt: &(impl Wait + Abort),
    alloc: Global,
    is_gone: bool,
    failing: &Failing,
    pick: Pick,
    want: &str,
) -> Result<bool, Fail> {
    let mut rack = rack_of(alloc, is_gone)?;
    arm(alloc, &mut rack, failing)?;
    rack.pick(pick);
    let (said, mut rack) = shown(rt, alloc, rack)?;
    let is_fault = said.as_str() == "fault" && rack.faults() == 1 && rack.devices() == 3;
    rack.cycle();
    let (again, rack) = shown(rt, alloc, rack)?;
    Ok(is_fault && again.as_str() == want && rack.faults() == 1)
}

/// The calls of one kind of a device, of which there are so many at least.
struct Row {
    is_gone: bool,
    path: &'static str,
    kind: Kind,
    least: u64,
}

const ROWS: [Row; 9] = [
    Row {
        is_gone: false,
        path: "/dev/sim0",
        kind: Kind::Sync,
        least: 1,
    },
    Row {
        is_gone: false,
        path: "/dev/sim0",
        kind: Kind::Read,
        least: 4,
    },
    Row {
        is_gone: false,
        path: "/dev/sim2",
        kind: Kind::Sync,
        least: 1,
    },
    Row {
        is_gone: false,
        path: "/dev/sim2",
        kind: Kind::Read,
        least: 2,
    },
    Row {
        is_gone: true,
        path: "/dev/sim0",
        kind: Kind::Sync,
        least: 1,
    },
    Row {
        is_gone: true,
        path: "/dev/sim0",
        kind: Kind::Read,
        least: 3,
    },
    Row {
        is_gone: true,
        path: "/dev/sim1",
        kind: Kind::Sync,
        least: 2,
    },
    Row {
        is_gone: true,
        path: "/dev/sim1",
        kind: Kind::Read,
        least: 3,
    },
    Row {
        is_gone: true,
        path: "/dev/sim1",
        kind: Kind::Write,
        least: 1,
    },
];

fn shown_of(is_gone: bool) -> &'static str {
    if is_gone {
        "free /dev/sim0 /dev/sim1 /dev/sim2; next 2;. "
    } else {
        "free /dev/sim2; next 8; 1 p stopped; 7 q stopped;. "
    }
}

/// Fails where one of the calls fails and isn't told.
fn check(
    rt: &(impl Wait + Abort),
    alloc: Global,
    row: &Row,
    how: How,
    pick: Pick,
) -> Result<(), Fail> {
    let (is_gone, path, kind) = (row.is_gone, row.path, row.kind);
    let count = counted(rt, alloc, is_gone, path, kind)?;
    if count < row.least {
        return Err("too few calls".into());
    }
    for skip in 0..count {
        let failing = Failing {
            path,
            kind,
            skip,
            how,
        };
        if !is_told(rt, alloc, is_gone, &failing, pick, shown_of(is_gone))? {
            return Err(format!(in alloc; "{failing:?}, {pick:?}")?.into());
        }
    }
    Ok(())
}

#[test]
fn each_call_that_fails_is_told(rt: HostRuntime) -> Result<(), Fail> {
    let alloc = rt.alloc();
    for row in &ROWS {
        check(&rt, alloc, row, How::Stop, Pick::Old)?;
        check(&rt, alloc, row, How::Once, Pick::New)?;
        check(&rt, alloc, row, How::Stop, Pick::Half)?;
    }
    Ok(())
}

// A device fails at each write and each sync of a pool that is made, renamed and destroyed.
use crate::engine::run;
use crate::said::Line;
use crate::site::{Failing, arm, three};
use st_memrack::{How, Kind, MemRack, Pick};
use st_rack::Rack;
use std::alloc::Global;
use std::process::Abort;
use std::sync::Wait;
use std::test::Fail;

const MAKE: Line = Line::Create("tank", &["/dev/sim0", "/dev/sim1"]);

const RENAME: Line = Line::Rename("tank", "pond");

const DESTROY: Line = Line::Destroy("pond");

/// Runs these calls on blank devices of which one fails.
fn failed(
    rt: &(impl Wait + Abort),
    alloc: Global,
    failing: &Failing,
    pick: Pick,
    lines: &[Line],
) -> Result<(String, MemRack), Fail> {
    let mut rack = three(alloc)?;
    arm(alloc, &mut rack, failing)?;
    rack.pick(pick);
    let (said, rack) = run(rt, alloc, rack, lines)?;
    if rack.faults() == 0 {
        return Err("no fault".into());
    }
    Ok((said, rack))
}

/// What the calls say, and then those of the next engine once the power was cut.
fn cut(
    rt: &(impl Wait + Abort),
    alloc: Global,
    failing: &Failing,
    pick: Pick,
) -> Result<(String, String), Fail> {
    let (said, mut rack) = failed(rt, alloc, failing, pick, &[MAKE, RENAME, DESTROY])?;
    rack.cycle();
    let next = [
        Line::Start("tank"),
        Line::Start("pond"),
        Line::Create("lake", &["/dev/sim0", "/dev/sim1"]),
        Line::Report,
    ];
    let (again, _) = run(rt, alloc, rack, &next)?;
    Ok((said, again))
}

/// What the devices are left with.
#[derive(Clone, Copy)]
enum Left {
    /// No pool, and no serial.
    Blank,
    /// No pool, and the serial 1.
    Known,
    Tank,
    Pond,
}

/// What the next engine says then.
fn said_of(left: Left) -> &'static str {
    match left {
        Left::Blank => "refused 13. refused 13. made 1 on 2. free /dev/sim2; next 2; 1 lake up;. ",
        Left::Known => "refused 13. refused 13. made 2 on 2. free /dev/sim2; next 3; 2 lake up;. ",
        Left::Tank => "changed 1. refused 13. refused 6. free /dev/sim2; next 2; 1 tank up;. ",
        Left::Pond => "refused 13. changed 1. refused 6. free /dev/sim2; next 2; 1 pond up;. ",
    }
}

/// The calls of a device, with the one that tells before from after, and what the engine says where one of them fails.
struct Row {
    path: &'static str,
    first: u64,
    last: u64,
    record: u64,
    said: &'static str,
    before: Left,
    after: Left,
}

const ROWS: [Row; 8] = [
    Row {
        path: "/dev/sim0",
        first: 0,
        last: 0,
        record: 0,
        said: "refused 27. refused 10. unchanged. ",
        before: Left::Blank,
        after: Left::Known,
    },
    Row {
        path: "/dev/sim0",
        first: 1,
        last: 3,
        record: 3,
        said: "refused 27. refused 10. unchanged. ",
        before: Left::Known,
        after: Left::Tank,
    },
    Row {
        path: "/dev/sim0",
        first: 4,
        last: 5,
        record: 5,
        said: "made 1 on 2. refused 27. unchanged. ",
        before: Left::Tank,
        after: Left::Pond,
    },
    Row {
        path: "/dev/sim0",
        first: 6,
        last: 7,
        record: 7,
        said: "made 1 on 2. changed 1. refused 27. ",
        before: Left::Pond,
        after: Left::Known,
    },
    Row {
        path: "/dev/sim1",
        first: 0,
        last: 1,
        record: 9,
        said: "refused 27. refused 10. unchanged. ",
        before: Left::Known,
        after: Left::Known,
    },
    Row {
        path: "/dev/sim1",
        first: 2,
        last: 2,
        record: 0,
        said: "refused 27. refused 10. unchanged. ",
        before: Left::Tank,
        after: Left::Tank,
    },
    Row {
        path: "/dev/sim1",
        first: 3,
        last: 3,
        record: 0,
        said: "made 1 on 2. refused 27. unchanged. ",
        before: Left::Pond,
        after: Left::Pond,
    },
    Row {
        path: "/dev/sim1",
        first: 4,
        last: 4,
        record: 0,
        said: "made 1 on 2. changed 1. refused 27. ",
        before: Left::Known,
        after: Left::Known,
    },
];

/// Fails where the engine, or the next one, says something else.
fn check(
    rt: &(impl Wait + Abort),
    alloc: Global,
    row: &Row,
    kind: Kind,
    pick: Pick,
) -> Result<(), Fail> {
    // The engine syncs each device when it begins.
    let more = if kind == Kind::Sync { 1 } else { 0 };
    for call in row.first..row.last.saturating_add(1) {
        let is_done = call > row.record || (call == row.record && pick != Pick::Old);
        let left = if is_done { row.after } else { row.before };
        let failing = Failing {
            path: row.path,
            kind,
            skip: call.saturating_add(more),
            how: How::Stop,
        };
        let (one, two) = cut(rt, alloc, &failing, pick)?;
        if one.as_str() != row.said || two.as_str() != said_of(left) {
            return Err(format!(in alloc; "{failing:?}, {pick:?}: {one}, then {two}")?.into());
        }
    }
    Ok(())
}

#[test]
fn a_stop_leaves_the_engine_before_or_after(rt: HostRuntime) -> Result<(), Fail> {
    let alloc = rt.alloc();
    for row in &ROWS {
        for pick in [Pick::Old, Pick::New, Pick::Half] {
            for kind in [Kind::Write, Kind::Sync] {
                check(&rt, alloc, row, kind, pick)?;
            }
        }
    }
    Ok(())
}

#[test]
fn a_pool_that_is_down_is_stopped_and_started(rt: HostRuntime) -> Result<(), Fail> {
    let alloc = rt.alloc();
    let lines = [
        MAKE,
        RENAME,
        DESTROY,
        Line::Stop("tank"),
        Line::Stop("pond"),
        Line::Start("tank"),
        Line::Start("pond"),
        Line::Report,
    ];
    for (path, call, how, pick, want) in [
        (
            "/dev/sim0",
            0,
            How::Once,
            Pick::New,
            "refused 27. refused 10. unchanged. changed 1. refused 13. refused 15. refused 13. free /dev/sim0 /dev/sim1 /dev/sim2; next 2;. ",
        ),
        (
            "/dev/sim1",
            2,
            How::Once,
            Pick::Old,
            "refused 27. refused 10. unchanged. changed 1. refused 13. changed 1. refused 13. free /dev/sim2; next 2; 1 tank up;. ",
        ),
        (
            "/dev/sim0",
            4,
            How::Once,
            Pick::New,
            "made 1 on 2. refused 27. unchanged. changed 1. refused 13. changed 1. refused 13. free /dev/sim2; next 2; 1 tank up;. ",
        ),
        (
            "/dev/sim0",
            4,
            How::Stop,
            Pick::New,
            "made 1 on 2. refused 27. unchanged. changed 1. refused 13. refused 27. refused 13. free /dev/sim2; next 2; 1 tank unsettled;. ",
        ),
        (
            "/dev/sim0",
            5,
            How::Once,
            Pick::Old,
            "made 1 on 2. refused 27. unchanged. changed 1. refused 13. changed 1. refused 13. free /dev/sim2; next 2; 1 tank up;. ",
        ),
        (
            "/dev/sim0",
            5,
            How::Once,
            Pick::New,
            "made 1 on 2. refused 27. unchanged. changed 1. refused 13. changed 1. unchanged. free /dev/sim2; next 2; 1 pond up;. ",
        ),
        (
            "/dev/sim1",
            3,
            How::Once,
            Pick::Old,
            "made 1 on 2. refused 27. unchanged. changed 1. refused 13. changed 1. unchanged. free /dev/sim2; next 2; 1 pond up;. ",
        ),
        (
            "/dev/sim0",
            6,
            How::Once,
            Pick::Old,
            "made 1 on 2. changed 1. refused 27. refused 13. changed 1. refused 13. changed 1. free /dev/sim2; next 2; 1 pond up;. ",
        ),
        (
            "/dev/sim1",
            4,
            How::Once,
            Pick::Old,
            "made 1 on 2. changed 1. refused 27. refused 13. changed 1. refused 13. refused 15. free /dev/sim0 /dev/sim1 /dev/sim2; next 2;. ",
        ),
    ] {
        let failing = Failing {
            path,
            kind: Kind::Write,
            skip: call,
            how,
        };
        let (said, _) = failed(&rt, alloc, &failing, pick, &lines)?;
        assert_eq!(rt; said.as_str(), want, "{failing:?}, {pick:?}");
    }
    Ok(())
}

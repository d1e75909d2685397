// Devices on which a run ends otherwise, or answers what it can't on good ones.
use crate::run::run;
use crate::site::{Failing, arm, one, put, two};
use st_memrack::{Kind, MemRack, Pick};
use st_rack::Rack;
use std::alloc::Global;
use std::sync::Wait;
use std::test::Fail;
use std::thread::Threads;

/// Which devices a run is handed.
#[derive(Clone, Copy)]
enum Site {
    /// The first has a sector too few.
    Small,
    /// A read of the first sectors of the first one fails.
    ReadFails,
    /// The record of a rename doesn't reach the first one.
    WriteFails,
    /// The first one of a run of the script, and the second one of a run of this one.
    OfTwoRuns(&'static str),
    /// The first one alone of a pool on two.
    WithoutSecond,
}

/// The devices of a run of this script.
fn after<W: Threads + Wait + Copy + Sync>(
    rt: &W,
    alloc: Global,
    script: &str,
) -> Result<MemRack, Fail> {
    let ran = run(rt, alloc, two(alloc, 8_192)?, script)?;
    Ok(ran.rack)
}

fn failing(alloc: Global, kind: Kind, skip: u64, last: u64) -> Result<MemRack, Fail> {
    let path = "/dev/sim0";
    let mut rack = two(alloc, 8_192)?;
    arm(alloc, &mut rack, &Failing { path, kind, skip }, last)?;
    rack.pick(Pick::Old);
    Ok(rack)
}

const ON_FIRST: &str = r#"{"call":"CreatePool","name":"p","devices":["/dev/sim0"]}"#;

const ON_SECOND: &str = r#"{"call":"CreatePool","name":"p","devices":["/dev/sim1"]}"#;

const ON_BOTH: &str = r#"{"call":"CreatePool","name":"p","devices":["/dev/sim0","/dev/sim1"]}"#;

/// A pool of serial 2 and the name of pool 1.
const SECOND_OF_THE_NAME: &str = r#"{"call":"CreatePool","name":"x","devices":["/dev/sim0"]}
{"call":"CreatePool","name":"p","devices":["/dev/sim1"]}"#;

/// A pool of serial 2 and another name.
const ANOTHER: &str = r#"{"call":"CreatePool","name":"x","devices":["/dev/sim0"]}
{"call":"CreatePool","name":"a","devices":["/dev/sim1"]}"#;

/// The same on a device that was in another pool 1 before, of which a record is left.
const ANOTHER_AND_A_RECORD: &str = r#"{"call":"CreatePool","name":"x","devices":["/dev/sim1"]}
{"call":"DestroyPool","name":"x"}
{"call":"CreatePool","name":"a","devices":["/dev/sim1"]}"#;

fn rack_of<W: Threads + Wait + Copy + Sync>(
    rt: &W,
    alloc: Global,
    site: Site,
) -> Result<MemRack, Fail> {
    match site {
        Site::Small => two(alloc, 8_191),
        Site::ReadFails => failing(alloc, Kind::Read, 0, 15),
        Site::WriteFails => failing(alloc, Kind::Write, 5, 8_191),
        Site::OfTwoRuns(script) => {
            let mut rack = after(rt, alloc, ON_FIRST)?;
            let mut other = after(rt, alloc, script)?;
            put(alloc, &mut other, &mut rack, "/dev/sim1")?;
            Ok(rack)
        }
        Site::WithoutSecond => {
            let mut whole = after(rt, alloc, ON_BOTH)?;
            let mut rack = one(alloc, "/dev/sim0")?;
            put(alloc, &mut whole, &mut rack, "/dev/sim0")?;
            Ok(rack)
        }
    }
}

/// A script on some devices: what the program says of the run's end, and what it prints.
struct Row {
    name: &'static str,
    site: Site,
    input: &'static str,
    told: &'static str,
    output: &'static str,
}

const ROWS: [Row; 8] = [
    Row {
        name: "a device that is too small",
        site: Site::Small,
        input: r#"{"call":"CreatePool","name":"p","devices":["/dev/sim0"]}
{"call":"CreatePool","name":"p","devices":["/dev/sim1","/dev/sim0"]}
{"call":"CreatePool","name":"q","devices":["/dev/sim1"]}
{"call":"EngineStateReport"}
"#,
        told: "",
        output: r#"{"code":7,"line":1,"result":null,"text":"DeviceTooSmall path=/dev/sim0"}
{"code":7,"line":2,"result":null,"text":"DeviceTooSmall path=/dev/sim0"}
{"code":0,"line":3,"result":[true,["00000000-0000-0001-0100-000000000000",["/dev/sim1"]]],"text":""}
{"code":0,"line":4,"result":{"free_devices":["/dev/sim0"],"next_serial":2,"pools":[{"mode":"up","name":"q","uuid":"00000000-0000-0001-0100-000000000000"}]},"text":""}
summary lines 4 ok 2 refused 2 written 0 read 0
"#,
    },
    Row {
        name: "a read that fails while the engine begins",
        site: Site::ReadFails,
        input: ON_FIRST,
        told: "open fault",
        output: "",
    },
    Row {
        name: "a rename whose record doesn't reach its device",
        site: Site::WriteFails,
        input: r#"{"call":"CreatePool","name":"p","devices":["/dev/sim0","/dev/sim1"]}
{"call":"RenamePool","name":"p","new":"q"}
{"call":"RenamePool","name":"p","new":"q"}
{"call":"EngineStateReport"}
{"call":"StopPool","name":"p"}
{"call":"EngineStateReport"}
{"call":"StartPool","id":"p"}
{"call":"RenamePool","name":"p","new":"q"}
{"call":"EngineStateReport"}
"#,
        told: "",
        output: r#"{"code":0,"line":1,"result":[true,["00000000-0000-0001-0100-000000000000",["/dev/sim0","/dev/sim1"]]],"text":""}
{"code":27,"line":2,"result":null,"text":"DeviceFault"}
{"code":5,"line":3,"result":null,"text":"NameInUse"}
{"code":0,"line":4,"result":{"free_devices":[],"next_serial":2,"pools":[{"mode":"down","name":"p","uuid":"00000000-0000-0001-0100-000000000000"}]},"text":""}
{"code":0,"line":5,"result":[true,"00000000-0000-0001-0100-000000000000"],"text":""}
{"code":0,"line":6,"result":{"free_devices":[],"next_serial":2,"pools":[{"mode":"unsettled","name":"p","uuid":"00000000-0000-0001-0100-000000000000"}]},"text":""}
{"code":0,"line":7,"result":[true,"00000000-0000-0001-0100-000000000000"],"text":""}
{"code":0,"line":8,"result":[true,"00000000-0000-0001-0100-000000000000"],"text":""}
{"code":0,"line":9,"result":{"free_devices":[],"next_serial":2,"pools":[{"mode":"up","name":"q","uuid":"00000000-0000-0001-0100-000000000000"}]},"text":""}
summary lines 9 ok 7 refused 2 written 0 read 0
"#,
    },
    Row {
        name: "devices of two runs, with one pool serial",
        site: Site::OfTwoRuns(ON_SECOND),
        input: ON_FIRST,
        told: "foreign pool 1",
        output: "",
    },
    Row {
        name: "devices of two runs, with one pool name",
        site: Site::OfTwoRuns(SECOND_OF_THE_NAME),
        input: ON_FIRST,
        told: "foreign pool 2",
        output: "",
    },
    Row {
        name: "devices of two runs, with a record of one pool serial",
        site: Site::OfTwoRuns(ANOTHER_AND_A_RECORD),
        input: ON_FIRST,
        told: "foreign pool 1",
        output: "",
    },
    Row {
        name: "devices of two runs, with nothing in common",
        site: Site::OfTwoRuns(ANOTHER),
        input: r#"{"call":"EngineStateReport"}"#,
        told: "",
        output: r#"{"code":0,"line":1,"result":{"free_devices":[],"next_serial":3,"pools":[{"mode":"stopped","name":"a","uuid":"00000000-0000-0002-0100-000000000000"},{"mode":"stopped","name":"p","uuid":"00000000-0000-0001-0100-000000000000"}]},"text":""}
summary lines 1 ok 1 refused 0 written 0 read 0
"#,
    },
    Row {
        name: "a pool without its second device",
        site: Site::WithoutSecond,
        input: r#"{"call":"StartPool","id":"p"}
{"call":"EngineStateReport"}
{"call":"StopPool","name":"p"}
{"call":"DestroyPool","name":"p"}
"#,
        told: "",
        output: r#"{"code":14,"line":1,"result":null,"text":"MissingDevice path=/dev/sim1"}
{"code":0,"line":2,"result":{"free_devices":[],"next_serial":2,"pools":[{"mode":"incomplete","name":"p","uuid":"00000000-0000-0001-0100-000000000000"}]},"text":""}
{"code":0,"line":3,"result":[false,null],"text":""}
{"code":11,"line":4,"result":null,"text":"PoolStopped"}
summary lines 4 ok 2 refused 2 written 0 read 0
"#,
    },
];

#[test]
fn each_row_ends_as_it_should(rt: HostRuntime) -> Result<(), Fail> {
    let alloc = rt.alloc();
    for row in &ROWS {
        let rack = rack_of(&rt, alloc, row.site)?;
        let count = rack.devices();
        let ran = run(&rt, alloc, rack, row.input)?;
        let told = ran.told(alloc)?;
        assert_eq!(rt; told.as_str(), row.told, "{}", row.name);
        assert_eq!(rt; ran.bytes(), row.output.as_bytes(), "{}", row.name);
        assert_eq!(rt; ran.rack.devices(), count, "{}", row.name);
    }
    Ok(())
}

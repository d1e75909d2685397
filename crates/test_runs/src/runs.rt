use anyhow::Result;
use st_lines::{Limit, MemorySink, MemorySource};
use st_model::{Gate, NoGate};
use st_session::run_words;
use st_status::{Status, exit_status, status_line};
use st_units::PoolSerial;
use std::alloc::Global;
use std::sync::atomic::{AtomicU64, Ordering};

/// A script, and what it prints on a rack of so many devices.
struct Row {
    name: &'static str,
    trace: bool,
    devices: usize,
    input: &'static str,
    output: &'static str,
}

const ROWS: [Row; 11] = [
    Row {
        name: "no line",
        trace: false,
        devices: 12,
        input: r#""#,
        output: r#"summary lines 0 ok 0 refused 0 written 0 read 0
"#,
    },
    Row {
        name: "the same pool again, then with one device more",
        trace: false,
        devices: 2,
        input: r#"{"call":"CreatePool","name":"p","devices":["/dev/sim0"]}
{"call":"CreatePool","name":"p","devices":["/dev/sim0"]}
{"call":"CreatePool","name":"p","devices":["/dev/sim0","/dev/sim1"]}
"#,
        output: r#"{"code":0,"line":1,"result":[true,["00000000-0000-0001-0100-000000000000",["/dev/sim0"]]],"text":""}
{"code":0,"line":2,"result":[false,null],"text":""}
{"code":5,"line":3,"result":null,"text":"NameInUse"}
summary lines 3 ok 2 refused 1 written 0 read 0
"#,
    },
    Row {
        name: "a device named twice",
        trace: false,
        devices: 1,
        input: r#"{"call":"CreatePool","name":"p","devices":["/dev/sim0","/dev/sim0"]}"#,
        output: r#"{"code":0,"line":1,"result":[true,["00000000-0000-0001-0100-000000000000",["/dev/sim0"]]],"text":""}
summary lines 1 ok 1 refused 0 written 0 read 0
"#,
    },
    Row {
        name: "a report with its trace",
        trace: true,
        devices: 1,
        input: r#"{"call":"EngineStateReport"}
"#,
        output: r#"{"code":0,"line":1,"result":{"free_devices":["/dev/sim0"],"next_serial":1,"pools":[]},"text":""}
{"event":"arrive","seat":1,"ticket":0,"want":["all","read"]}
{"event":"grant","seat":1,"ticket":0}
{"entries":[{"call":{"call":"EngineStateReport"},"env":"none","from":1,"reply":{"code":0,"result":{"free_devices":["/dev/sim0"],"next_serial":1,"pools":[]},"text":""}}],"event":"release","seat":1,"ticket":0}
summary lines 1 ok 1 refused 0 written 0 read 0
"#,
    },
    Row {
        name: "a pool and the report, on twelve devices",
        trace: false,
        devices: 12,
        input: r#"{"call":"CreatePool","name":"p","devices":["/dev/sim0"]}
{"call":"EngineStateReport"}
"#,
        output: r#"{"code":0,"line":1,"result":[true,["00000000-0000-0001-0100-000000000000",["/dev/sim0"]]],"text":""}
{"code":0,"line":2,"result":{"free_devices":["/dev/sim1","/dev/sim10","/dev/sim11","/dev/sim2","/dev/sim3","/dev/sim4","/dev/sim5","/dev/sim6","/dev/sim7","/dev/sim8","/dev/sim9"],"next_serial":2,"pools":[{"mode":"up","name":"p","uuid":"00000000-0000-0001-0100-000000000000"}]},"text":""}
summary lines 2 ok 2 refused 0 written 0 read 0
"#,
    },
    Row {
        name: "refusals of a new pool",
        trace: false,
        devices: 1,
        input: r#"{"call":"CreatePool","name":"p","devices":[]}
{"call":"CreatePool","name":"p","devices":["/dev/none"]}
{"call":"CreatePool","name":"p","devices":["/dev/sim0"]}
{"call":"CreatePool","name":"q","devices":["/dev/sim0"]}
"#,
        output: r#"{"code":3,"line":1,"result":null,"text":"EmptyDevices"}
{"code":4,"line":2,"result":null,"text":"NoSuchDevice path=/dev/none"}
{"code":0,"line":3,"result":[true,["00000000-0000-0001-0100-000000000000",["/dev/sim0"]]],"text":""}
{"code":6,"line":4,"result":null,"text":"DeviceInUse path=/dev/sim0 pool=p"}
summary lines 4 ok 1 refused 3 written 0 read 0
"#,
    },
    Row {
        name: "a pool's life",
        trace: false,
        devices: 2,
        input: r#"{"call":"CreatePool","name":"p","devices":["/dev/sim0"]}
{"call":"RenamePool","name":"p","new":"p"}
{"call":"RenamePool","name":"p","new":"q"}
{"call":"RenamePool","name":"p","new":"r"}
{"call":"StopPool","name":"q"}
{"call":"StopPool","name":"q"}
{"call":"RenamePool","name":"q","new":"r"}
{"call":"DestroyPool","name":"q"}
{"call":"CreatePool","name":"r","devices":["/dev/sim0"]}
{"call":"CreatePool","name":"q","devices":["/dev/sim1"]}
{"call":"EngineStateReport"}
{"call":"StartPool","id":"q"}
{"call":"StartPool","id":"00000000-0000-0001-0100-000000000000","id_type":"uuid"}
{"call":"StartPool","id":"p","id_type":"name"}
{"call":"DestroyPool","name":"q"}
{"call":"DestroyPool","name":"q"}
{"call":"StopPool","name":"q"}
{"call":"CreatePool","name":"q","devices":["/dev/sim0","/dev/sim1"]}
{"call":"EngineStateReport"}
"#,
        output: r#"{"code":0,"line":1,"result":[true,["00000000-0000-0001-0100-000000000000",["/dev/sim0"]]],"text":""}
{"code":0,"line":2,"result":[false,null],"text":""}
{"code":0,"line":3,"result":[true,"00000000-0000-0001-0100-000000000000"],"text":""}
{"code":13,"line":4,"result":null,"text":"NoSuchPool"}
{"code":0,"line":5,"result":[true,"00000000-0000-0001-0100-000000000000"],"text":""}
{"code":0,"line":6,"result":[false,null],"text":""}
{"code":11,"line":7,"result":null,"text":"PoolStopped"}
{"code":11,"line":8,"result":null,"text":"PoolStopped"}
{"code":6,"line":9,"result":null,"text":"DeviceInUse path=/dev/sim0 pool=q"}
{"code":5,"line":10,"result":null,"text":"NameInUse"}
{"code":0,"line":11,"result":{"free_devices":["/dev/sim1"],"next_serial":2,"pools":[{"mode":"stopped","name":"q","uuid":"00000000-0000-0001-0100-000000000000"}]},"text":""}
{"code":0,"line":12,"result":[true,"00000000-0000-0001-0100-000000000000"],"text":""}
{"code":0,"line":13,"result":[false,null],"text":""}
{"code":13,"line":14,"result":null,"text":"NoSuchPool"}
{"code":0,"line":15,"result":[true,"00000000-0000-0001-0100-000000000000"],"text":""}
{"code":0,"line":16,"result":[false,null],"text":""}
{"code":13,"line":17,"result":null,"text":"NoSuchPool"}
{"code":0,"line":18,"result":[true,["00000000-0000-0002-0100-000000000000",["/dev/sim0","/dev/sim1"]]],"text":""}
{"code":0,"line":19,"result":{"free_devices":[],"next_serial":3,"pools":[{"mode":"up","name":"q","uuid":"00000000-0000-0002-0100-000000000000"}]},"text":""}
summary lines 19 ok 12 refused 7 written 0 read 0
"#,
    },
    Row {
        name: "a call that the engine doesn't run yet",
        trace: true,
        devices: 1,
        input: r#"{"call":"Check","pool":"p"}
"#,
        output: r#"{"code":30,"line":1,"result":null,"text":"NotBuilt call=Check"}
summary lines 1 ok 0 refused 1 written 0 read 0
"#,
    },
    Row {
        name: "lines that are no calls",
        trace: false,
        devices: 1,
        input: r#"{"call"

[]
{"call":"PowerCycle"}
{"call":"EngineStateReport","lane":8}
{"call":"CreatePool","name":"a/b","devices":["/dev/sim0"]}
"#,
        output: r#"{"code":1,"line":1,"result":null,"text":"BadCall member=line"}
{"code":1,"line":2,"result":null,"text":"BadCall member=line"}
{"code":1,"line":3,"result":null,"text":"BadCall member=line"}
{"code":1,"line":4,"result":null,"text":"BadCall member=call"}
{"code":1,"line":5,"result":null,"text":"BadCall member=lane"}
{"code":2,"line":6,"result":null,"text":"BadName member=name"}
summary lines 6 ok 0 refused 6 written 0 read 0
"#,
    },
    Row {
        name: "an unknown member, and a member that stands twice",
        trace: false,
        devices: 1,
        input: r#"{"call":"Check","call":"EngineStateReport","colour":3}"#,
        output: r#"{"code":0,"line":1,"result":{"free_devices":["/dev/sim0"],"next_serial":1,"pools":[]},"text":""}
summary lines 1 ok 1 refused 0 written 0 read 0
"#,
    },
    Row {
        name: "two lanes, each by its own seat",
        trace: true,
        devices: 1,
        input: r#"{"call":"EngineStateReport","lane":1}
{"call":"EngineStateReport"}
"#,
        output: r#"{"code":0,"line":1,"result":{"free_devices":["/dev/sim0"],"next_serial":1,"pools":[]},"text":""}
{"code":0,"line":2,"result":{"free_devices":["/dev/sim0"],"next_serial":1,"pools":[]},"text":""}
{"event":"arrive","seat":2,"ticket":0,"want":["all","read"]}
{"event":"grant","seat":2,"ticket":0}
{"entries":[{"call":{"call":"EngineStateReport"},"env":"none","from":1,"reply":{"code":0,"result":{"free_devices":["/dev/sim0"],"next_serial":1,"pools":[]},"text":""}}],"event":"release","seat":2,"ticket":0}
{"event":"arrive","seat":1,"ticket":1,"want":["all","read"]}
{"event":"grant","seat":1,"ticket":1}
{"entries":[{"call":{"call":"EngineStateReport"},"env":"none","from":2,"reply":{"code":0,"result":{"free_devices":["/dev/sim0"],"next_serial":1,"pools":[]},"text":""}}],"event":"release","seat":1,"ticket":1}
summary lines 2 ok 2 refused 0 written 0 read 0
"#,
    },
];

/// Counts how often it is passed.
#[derive(Drop)]
struct Counting {
    passes: AtomicU64,
}

impl Gate for Counting {
    fn pass(&self, _line: u64) {
        let _before = self.passes.fetch_add(1, Ordering::SeqCst);
    }
}

fn words(alloc: Global, trace: bool) -> Result<Vec<String>> {
    let mut list = Vec::new(alloc);
    list.push(String::from_str(alloc, "run")?)?;
    if trace {
        list.push(String::from_str(alloc, "--trace")?)?;
    }
    Ok(list)
}

fn source(alloc: Global, input: &str, failing: Vec<u64>) -> Result<MemorySource> {
    let bytes = Vec::from_slice(alloc, input.as_bytes())?;
    Ok(MemorySource::new(bytes, 64, failing))
}

#[test]
fn each_row_prints_its_bytes(rt: HostRuntime) -> Result<()> {
    let alloc = rt.alloc();
    for row in &ROWS {
        let words = words(alloc, row.trace)?;
        let mut source = source(alloc, row.input, Vec::new(alloc))?;
        let mut sink = MemorySink::new(alloc, 1000, Vec::new(alloc));
        let Ok(rack) = sim_devices::rack(alloc, row.devices.min(12)) else {
            panic!(rt; "out of memory");
        };
        let outcome = run_words(&rt, alloc, &words, &mut source, &mut sink, rack, &NoGate);
        assert_eq!(rt; exit_status(&outcome.status), 0, "{}", row.name);
        assert_eq!(rt; sink.bytes(), row.output.as_bytes(), "{}", row.name);
    }
    Ok(())
}

#[test]
fn a_wrong_word_is_usage(rt: HostRuntime) -> Result<()> {
    let alloc = rt.alloc();
    let words = vec![in alloc; String::from_str(alloc, "walk")?]?;
    let mut source = source(alloc, "", Vec::new(alloc))?;
    let mut sink = MemorySink::new(alloc, 1000, Vec::new(alloc));
    let Ok(rack) = sim_devices::rack(alloc, 1) else {
        panic!(rt; "out of memory");
    };
    let outcome = run_words(&rt, alloc, &words, &mut source, &mut sink, rack, &NoGate);
    assert_eq!(rt; exit_status(&outcome.status), 2);
    assert_eq!(rt; sink.bytes(), b"".as_slice());
    Ok(())
}

#[test]
fn a_source_that_fails_is_a_read_fault(rt: HostRuntime) -> Result<()> {
    let alloc = rt.alloc();
    let words = words(alloc, false)?;
    let line =
        "{\"call\":\"EngineStateReport\"}\n{\"call\":\"EngineStateReport\"}\n{\"call\":\"EngineStateReport\"}\n";
    let mut source = source(alloc, line, vec![in alloc; 2]?)?;
    let mut sink = MemorySink::new(alloc, 1000, Vec::new(alloc));
    let Ok(rack) = sim_devices::rack(alloc, 1) else {
        panic!(rt; "out of memory");
    };
    let outcome = run_words(&rt, alloc, &words, &mut source, &mut sink, rack, &NoGate);
    assert_eq!(rt; exit_status(&outcome.status), 3);
    assert_eq!(rt; sink.bytes(), b"".as_slice());
    Ok(())
}

#[test]
fn a_sink_that_fails_has_a_prefix(rt: HostRuntime) -> Result<()> {
    let alloc = rt.alloc();
    let words = words(alloc, false)?;
    let mut source = source(alloc, "", Vec::new(alloc))?;
    let mut sink = MemorySink::new(alloc, 8, vec![in alloc; 3]?);
    let Ok(rack) = sim_devices::rack(alloc, 1) else {
        panic!(rt; "out of memory");
    };
    let outcome = run_words(&rt, alloc, &words, &mut source, &mut sink, rack, &NoGate);
    assert_eq!(rt; exit_status(&outcome.status), 4);
    assert_eq!(rt; sink.bytes(), b"summary lines 0 ".as_slice());
    Ok(())
}

#[test]
fn the_gate_is_passed_once_a_call(rt: HostRuntime) -> Result<()> {
    let alloc = rt.alloc();
    let words = words(alloc, false)?;
    let input = r#"{"call":"EngineStateReport"}
{"call":"Check","pool":"p"}
{"call"
{"call":"EngineStateReport"}
"#;
    let mut source = source(alloc, input, Vec::new(alloc))?;
    let mut sink = MemorySink::new(alloc, 1000, Vec::new(alloc));
    let Ok(rack) = sim_devices::rack(alloc, 1) else {
        panic!(rt; "out of memory");
    };
    let gate = Counting {
        passes: AtomicU64::new(0),
    };
    let outcome = run_words(&rt, alloc, &words, &mut source, &mut sink, rack, &gate);
    assert_eq!(rt; exit_status(&outcome.status), 0);
    assert_eq!(rt; gate.passes.load(Ordering::SeqCst), 2);
    Ok(())
}

#[test]
fn each_status_has_its_line(rt: HostRuntime) -> Result<()> {
    let alloc = rt.alloc();
    let rows = [
        (Status::ReadFault, 3, "read fault"),
        (Status::WriteFault, 4, "write fault"),
        (Status::OutOfMemory, 5, "out of memory"),
        (Status::InputLimit(Limit::Bytes), 6, "input limit: bytes"),
        (Status::InputLimit(Limit::Lines), 6, "input limit: lines"),
        (
            Status::InputLimit(Limit::Line(17)),
            6,
            "input limit: line 17",
        ),
        (Status::OpenFault, 7, "open fault"),
        (Status::Foreign(PoolSerial::of(1)), 8, "foreign pool 1"),
    ];
    for (status, exit, text) in rows {
        assert_eq!(rt; exit_status(&status), exit, "{}", text);
        let Ok(Some(line)) = status_line(alloc, &status) else {
            panic!(rt; "no line");
        };
        assert_eq!(rt; line.as_str(), text);
    }
    Ok(())
}

use anyhow::Result;
use st_lines::{MemorySink, MemorySource};
use st_model::NoGate;
use st_session::run_words;
use st_status::exit_status;
use std::alloc::Global;
use std::process::Abort;
use std::sync::Wait;
use std::thread::Threads;

/// Lines of which some are calls and some are none.
const CHECKED: &str = r#"
{"call":"CreatePool","name":"tank","devices":["/dev/sim0","/dev/sim1"]}
{"call":"CreateFilesystems","pool":"tank","filesystems":[{"name":"home","size":65536},{"name":"srv"}]}
{"call":"FsWrite","pool":"tank","name":"home","sector":0,"fill":65,"sectors":16,"lane":2}
{"call":"FsRead","pool":"tank","name":"home","sector":18446744073709551616,"sectors":1}
{"call":"Check","pool":"a/b"}
{"call":"Check","pool":"tank","colour":3}
{"call":"StartPool","id":"00000000-0000-0001-0100-000000000000","id_type":"uuid"}
{"call":"EngineStateReport","lane":8}
{"call":"RenamePool","name":"tank"}
{"call":"Format","pool":"tank"}
{"call"
"#;

/// What a check of them writes.
const VERDICTS: &str = r#"
{"code":0,"line":1,"result":"accepted","text":""}
{"code":0,"line":2,"result":"accepted","text":""}
{"code":0,"line":3,"result":"accepted","text":""}
{"code":1,"line":4,"result":null,"text":"BadCall member=sector"}
{"code":2,"line":5,"result":null,"text":"BadName member=pool"}
{"code":0,"line":6,"result":"accepted","text":""}
{"code":0,"line":7,"result":"accepted","text":""}
{"code":1,"line":8,"result":null,"text":"BadCall member=lane"}
{"code":1,"line":9,"result":null,"text":"BadCall member=new"}
{"code":1,"line":10,"result":null,"text":"BadCall member=call"}
{"code":1,"line":11,"result":null,"text":"BadCall member=line"}
summary lines 11 ok 5 refused 6 written 0 read 0
"#;

/// The exit status of a run, and what it wrote.
#[derive(Drop)]
struct Ran {
    exit: u8,
    sink: MemorySink,
}

/// Runs the program's call over an input and one device; these calls of the sink fail.
fn run_over<W: Threads + Wait + Copy + Sync + Abort>(
    rt: &W,
    alloc: Global,
    words: &str,
    input: Vec<u8>,
    failing: Vec<u64>,
) -> Result<Ran> {
    let mut list = Vec::new(alloc);
    for word in words.split_whitespace() {
        list.push(String::from_str(alloc, word)?)?;
    }
    let mut source = MemorySource::new(input, 65_536, Vec::new(alloc));
    let mut sink = MemorySink::new(alloc, 65_536, failing);
    let Ok(rack) = sim_devices::rack(alloc, 1) else {
        panic!(rt; "out of memory");
    };
    let outcome = run_words(rt, alloc, &list, &mut source, &mut sink, rack, &NoGate);
    let exit = exit_status(&outcome.status);
    Ok(Ran { exit, sink })
}

/// The bytes of a text, but for the LF that it begins with.
fn bytes_of(alloc: Global, text: &str) -> Result<Vec<u8>> {
    Ok(Vec::from_slice(alloc, text.trim_start().as_bytes())?)
}

#[test]
fn a_check_tells_of_each_line(rt: HostRuntime) -> Result<()> {
    let alloc = rt.alloc();
    let ran = run_over(
        &rt,
        alloc,
        "check",
        bytes_of(alloc, CHECKED)?,
        Vec::new(alloc),
    )?;
    assert_eq!(rt; ran.exit, 0);
    assert_eq!(rt; ran.sink.bytes(), bytes_of(alloc, VERDICTS)?.as_slice());
    Ok(())
}

#[test]
fn a_check_goes_by_the_lanes_of_the_words(rt: HostRuntime) -> Result<()> {
    let alloc = rt.alloc();
    for (words, ok) in [
        ("check", "1 refused 0"),
        ("check --lanes 3 --number 9 --trace", "1 refused 0"),
        ("check --lanes=2", "0 refused 1"),
        ("check --lanes 1", "0 refused 1"),
    ] {
        let input = Vec::from_slice(alloc, br#"{"call":"EngineStateReport","lane":2}"#)?;
        let ran = run_over(&rt, alloc, words, input, Vec::new(alloc))?;
        let summary = format!(in alloc; "summary lines 1 ok {ok} written 0 read 0\n")?;
        assert_eq!(rt; ran.exit, 0, "{words}");
        assert!(rt; ran.sink.bytes().ends_with(summary.as_bytes()), "{words}");
    }
    Ok(())
}

/// A call, padded with blanks to so many bytes.
fn padded(alloc: Global, len: usize) -> Result<Vec<u8>> {
    let mut line = Vec::from_slice(alloc, br#"{"call":"EngineStateReport"}"#)?;
    for _ in line.len()..len {
        line.push(b' ')?;
    }
    Ok(line)
}

#[test]
fn a_line_of_the_limit_is_read(rt: HostRuntime) -> Result<()> {
    let alloc = rt.alloc();
    for words in ["run", "check"] {
        for (len, exit, empty) in [(16_384, 0, false), (16_385, 6, true)] {
            let ran = run_over(&rt, alloc, words, padded(alloc, len)?, Vec::new(alloc))?;
            assert_eq!(rt; ran.exit, exit, "{words} of {len}");
            assert_eq!(rt; ran.sink.bytes().is_empty(), empty, "{words} of {len}");
        }
    }
    Ok(())
}

/// A hash of bytes: FNV-1a of 64 bits.
fn hash(bytes: &[u8]) -> u64 {
    let mut hash = 0xcbf2_9ce4_8422_2325u64;
    for byte in bytes {
        hash = (hash ^ u64::from(*byte)).wrapping_mul(0x0100_0000_01b3);
    }
    hash
}

#[test]
fn a_script_is_that_of_its_number(rt: HostRuntime) -> Result<()> {
    let alloc = rt.alloc();
    // Made by a program of their own, from the rule alone.
    for (words, len, want) in [
        ("gen --number 7", 1_560_410, 0xfabb_d805_c175_e098),
        (
            "gen --lanes 3 --number 18446744073709551615",
            1_559_837,
            0xc373_9d4b_1aa2_c419,
        ),
        ("--lanes=1 gen --trace", 1_559_179, 0xcab5_718b_bd62_f1aa),
    ] {
        let ran = run_over(&rt, alloc, words, Vec::new(alloc), Vec::new(alloc))?;
        assert_eq!(rt; ran.exit, 0, "{words}");
        assert_eq!(rt; ran.sink.bytes().len(), len, "{words}");
        assert_eq!(rt; hash(ran.sink.bytes()), want, "{words}");
    }
    Ok(())
}

#[test]
fn each_line_of_a_script_is_a_call(rt: HostRuntime) -> Result<()> {
    let alloc = rt.alloc();
    let script = run_over(
        &rt,
        alloc,
        "gen --number 7",
        Vec::new(alloc),
        Vec::new(alloc),
    )?;
    let input = Vec::from_slice(alloc, script.sink.bytes())?;
    let ran = run_over(&rt, alloc, "check", input, Vec::new(alloc))?;
    assert_eq!(rt; ran.exit, 0);
    assert!(rt;
        ran.sink.bytes().ends_with(b"summary lines 20000 ok 20000 refused 0 written 0 read 0\n")
    );
    Ok(())
}

#[test]
fn a_sink_that_fails_is_a_write_fault_in_each_mode(rt: HostRuntime) -> Result<()> {
    let alloc = rt.alloc();
    for (words, call, len) in [("check", 1, 0), ("gen", 1, 0), ("gen", 3, 131_072)] {
        let ran = run_over(&rt, alloc, words, padded(alloc, 0)?, vec![in alloc; call]?)?;
        assert_eq!(rt; ran.exit, 4, "{words} at call {call}");
        assert!(rt; ran.sink.bytes().len() <= len, "{words} at call {call}");
    }
    Ok(())
}

#[test]
fn recover_is_usage_in_each_mode(rt: HostRuntime) -> Result<()> {
    let alloc = rt.alloc();
    for words in ["run --recover", "check --recover", "gen --recover", ""] {
        let ran = run_over(&rt, alloc, words, Vec::new(alloc), Vec::new(alloc))?;
        assert_eq!(rt; ran.exit, 2, "{words}");
        assert!(rt; ran.sink.bytes().is_empty(), "{words}");
    }
    Ok(())
}

use LineFault::{BadCall, BadName};
use anyhow::Result;
use st_calls::{LineFault, call_word, read_call};
use st_units::Member;
use std::alloc::Global;

/// The name of the call that a line is read as on eight lanes, or its fault.
fn read(alloc: Global, line: &[u8]) -> Result<&'static str, LineFault> {
    let (_lane, call) = read_call(alloc, line, 8)?;
    Ok(call_word(&call))
}

#[test]
fn what_is_no_call_at_all(rt: HostRuntime) -> Result<()> {
    for (line, member) in [
        (r#""#, Member::Line),
        (r#"null"#, Member::Line),
        (r#"[]"#, Member::Line),
        (r#"{"call""#, Member::Line),
        (r#"{"call":"Check","pool":"p"} x"#, Member::Line),
        (r#"{"call":"Check","pool":"p",}"#, Member::Line),
        (
            r#"{"call":"Check","pool":"p","colour":1e999}"#,
            Member::Line,
        ),
        (
            r#"{"call":"Check","pool":"p","colour":"\ud800"}"#,
            Member::Line,
        ),
        (r#"{"call":"Check","pool":"p","colour":01}"#, Member::Line),
        (r#"{}"#, Member::Call),
        (r#"{"pool":"p"}"#, Member::Call),
        (r#"{"call":7,"pool":"p"}"#, Member::Call),
        (r#"{"call":"check","pool":"p"}"#, Member::Call),
        (r#"{"call":"PowerCycle"}"#, Member::Call),
        (r#"{"call":"walk","lane":8}"#, Member::Lane),
        (r#"{"call":"Check","pool":"p","lane":null}"#, Member::Lane),
        (r#"{"call":"Check","pool":"p","lane":"0"}"#, Member::Lane),
        (r#"{"call":"Check","pool":"p","lane":0.0}"#, Member::Lane),
        (r#"{"call":"Check","pool":"p","lane":-0}"#, Member::Lane),
        (r#"{"call":"Check","pool":"p","lane":1e0}"#, Member::Lane),
    ] {
        assert_eq!(rt;
            read(rt.alloc(), line.as_bytes()),
            Err(BadCall(member)),
            "at {line}"
        );
    }
    for line in [
        b"\xff".as_slice(),
        b"\xef\xbb\xbf{\"call\":\"EngineStateReport\"}",
    ] {
        assert_eq!(rt;
            read(rt.alloc(), line),
            Err(BadCall(Member::Line)),
            "at {line:?}"
        );
    }
    Ok(())
}

#[test]
fn calls_on_pools_and_their_faults(rt: HostRuntime) -> Result<()> {
    for (line, want) in [
        (r#"{"call":"EngineStateReport"}"#, Ok("EngineStateReport")),
        (
            r#"{"call":"Check","pool":"p","colour":3,"lane":7}"#,
            Ok("Check"),
        ),
        (
            r#" {"pool":"p","\u0063all":"PoolReport"} "#,
            Ok("PoolReport"),
        ),
        (
            r#"{"call":"Check","call":"PoolReport","pool":7,"pool":"p"}"#,
            Ok("PoolReport"),
        ),
        (
            r#"{"call":"Check","pool":"p","pool":7}"#,
            Err(BadCall(Member::Pool)),
        ),
        (r#"{"call":"Check"}"#, Err(BadCall(Member::Pool))),
        (
            r#"{"call":"Check","pool":null}"#,
            Err(BadCall(Member::Pool)),
        ),
        (
            r#"{"call":"Check","pool":"a/b"}"#,
            Err(BadName(Member::Pool)),
        ),
        (r#"{"call":"Check","pool":""}"#, Err(BadName(Member::Pool))),
        (
            r#"{"call":"Check","pool":"a b"}"#,
            Err(BadName(Member::Pool)),
        ),
        (
            r#"{"call":"CreatePool","name":"p","devices":[]}"#,
            Ok("CreatePool"),
        ),
        (
            r#"{"call":"CreatePool","name":"a/b","devices":7}"#,
            Err(BadName(Member::Name)),
        ),
        (
            r#"{"call":"CreatePool","devices":["dev"]}"#,
            Err(BadCall(Member::Name)),
        ),
        (
            r#"{"call":"CreatePool","name":"p","devices":null}"#,
            Err(BadCall(Member::Devices)),
        ),
        (
            r#"{"call":"CreatePool","name":"p","devices":["/a","b"]}"#,
            Err(BadCall(Member::Devices)),
        ),
        (r#"{"call":"DestroyPool","name":"p"}"#, Ok("DestroyPool")),
        (
            r#"{"call":"StopPool","pool":"p"}"#,
            Err(BadCall(Member::Name)),
        ),
        (
            r#"{"call":"RenamePool","name":"p","new":"p"}"#,
            Ok("RenamePool"),
        ),
        (
            r#"{"call":"RenamePool","name":"p","new":"/"}"#,
            Err(BadName(Member::New)),
        ),
        (
            r#"{"call":"AddDataDevs","pool":"p","devices":["/a","/a"]}"#,
            Ok("AddDataDevs"),
        ),
        (
            r#"{"call":"InitCache","pool":"/","devices":[7]}"#,
            Err(BadName(Member::Pool)),
        ),
        (
            r#"{"call":"AddCacheDevs","pool":"p","devices":{}}"#,
            Err(BadCall(Member::Devices)),
        ),
        (r#"{"call":"StartPool","id":"p"}"#, Ok("StartPool")),
        (
            r#"{"call":"StartPool","id":"p","id_type":"name"}"#,
            Ok("StartPool"),
        ),
        (
            r#"{"call":"StartPool","id":"a/b"}"#,
            Err(BadName(Member::Id)),
        ),
        (
            r#"{"call":"StartPool","id_type":null}"#,
            Err(BadCall(Member::IdType)),
        ),
        (
            r#"{"call":"StartPool","id_type":"both"}"#,
            Err(BadCall(Member::IdType)),
        ),
        (
            r#"{"call":"StartPool","id":"p","id_type":"uuid"}"#,
            Err(BadCall(Member::Id)),
        ),
        (
            r#"{"call":"StartPool","id":"00000000-0000-0001-0100-000000000000","id_type":"uuid"}"#,
            Ok("StartPool"),
        ),
        (
            r#"{"call":"StartPool","id":"0000000000000001010000000000000A","id_type":"uuid"}"#,
            Ok("StartPool"),
        ),
        (
            r#"{"call":"PoolReports","pools":["q","p","q"]}"#,
            Ok("PoolReports"),
        ),
        (
            r#"{"call":"PoolReports","pools":[]}"#,
            Err(BadCall(Member::Pools)),
        ),
        (
            r#"{"call":"PoolReports","pools":["1","2","3","4","5","6","7","8","1"]}"#,
            Ok("PoolReports"),
        ),
        (
            r#"{"call":"PoolReports","pools":["1","2","3","4","5","6","7","8","9"]}"#,
            Err(BadCall(Member::Pools)),
        ),
        (
            r#"{"call":"PoolReports","pools":["1","2","3","4","5","6","7","8","/"]}"#,
            Err(BadName(Member::Pools)),
        ),
        (
            r#"{"call":"PoolReports","pools":[7,"/"]}"#,
            Err(BadCall(Member::Pools)),
        ),
    ] {
        assert_eq!(rt; read(rt.alloc(), line.as_bytes()), want, "at {line}");
    }
    Ok(())
}

#[test]
fn calls_on_filesystems_and_their_faults(rt: HostRuntime) -> Result<()> {
    for (line, want) in [
        (
            r#"{"call":"CreateFilesystems","pool":"p","filesystems":[]}"#,
            Ok("CreateFilesystems"),
        ),
        (
            r#"{"call":"CreateFilesystems","pool":"p","filesystems":[{"name":"a","size":null,"limit":1}]}"#,
            Ok("CreateFilesystems"),
        ),
        (
            r#"{"call":"CreateFilesystems","pool":"p","filesystems":[{"name":"/","size":"x"}]}"#,
            Err(BadName(Member::Filesystems)),
        ),
        (
            r#"{"call":"CreateFilesystems","pool":"p","filesystems":[{"name":"a","size":-1},{"name":"/"}]}"#,
            Err(BadCall(Member::Filesystems)),
        ),
        (
            r#"{"call":"CreateFilesystems","pool":"p","filesystems":[{"name":"a","limit":1.0}]}"#,
            Err(BadCall(Member::Filesystems)),
        ),
        (
            r#"{"call":"CreateFilesystems","pool":"p","filesystems":[7]}"#,
            Err(BadCall(Member::Filesystems)),
        ),
        (
            r#"{"call":"DestroyFilesystems","pool":"p","names":["a","a"]}"#,
            Ok("DestroyFilesystems"),
        ),
        (
            r#"{"call":"DestroyFilesystems","pool":"p","names":["a","/",7]}"#,
            Err(BadName(Member::Names)),
        ),
        (
            r#"{"call":"DestroyFilesystems","pool":"p","names":["a",null,"/"]}"#,
            Err(BadCall(Member::Names)),
        ),
        (
            r#"{"call":"SnapshotFilesystem","pool":"p","origin":"/","name":7}"#,
            Err(BadName(Member::Origin)),
        ),
        (
            r#"{"call":"SnapshotFilesystem","pool":"p","origin":"a","name":"s"}"#,
            Ok("SnapshotFilesystem"),
        ),
        (
            r#"{"call":"RenameFilesystem","pool":"p","name":"a"}"#,
            Err(BadCall(Member::New)),
        ),
        (
            r#"{"call":"SetSizeLimit","pool":"p","name":"a"}"#,
            Ok("SetSizeLimit"),
        ),
        (
            r#"{"call":"SetSizeLimit","pool":"p","name":"a","limit":null}"#,
            Ok("SetSizeLimit"),
        ),
        (
            r#"{"call":"SetSizeLimit","pool":"p","name":"a","limit":true}"#,
            Err(BadCall(Member::Limit)),
        ),
        (
            r#"{"call":"SetFsLimit","pool":"p","limit":null}"#,
            Err(BadCall(Member::Limit)),
        ),
        (
            r#"{"call":"SetFsLimit","pool":"p","limit":18446744073709551615}"#,
            Ok("SetFsLimit"),
        ),
        (
            r#"{"call":"SetOverprovisioning","pool":"p","value":0}"#,
            Err(BadCall(Member::Value)),
        ),
        (
            r#"{"call":"SetOverprovisioning","pool":"p","value":false}"#,
            Ok("SetOverprovisioning"),
        ),
        (
            r#"{"call":"SetMerge","pool":"p","name":"a","value":true}"#,
            Ok("SetMerge"),
        ),
        (
            r#"{"call":"SetMerge","pool":"p","value":true}"#,
            Err(BadCall(Member::Name)),
        ),
        (
            r#"{"call":"FsRead","pool":"p","name":"a","sector":18446744073709551616,"sectors":1}"#,
            Err(BadCall(Member::Sector)),
        ),
        (
            r#"{"call":"FsRead","pool":"p","name":"a","sector":18446744073709551615,"sectors":1}"#,
            Ok("FsRead"),
        ),
        (
            r#"{"call":"FsRead","pool":"p","name":"a","sector":1e2,"sectors":1}"#,
            Err(BadCall(Member::Sector)),
        ),
        (
            r#"{"call":"FsRead","pool":"p","name":"a","sector":1,"sectors":1.5}"#,
            Err(BadCall(Member::Sectors)),
        ),
    ] {
        assert_eq!(rt; read(rt.alloc(), line.as_bytes()), want, "at {line}");
    }
    Ok(())
}

/// An FsWrite with these members behind its sector.
fn write(alloc: Global, members: &str) -> Result<&'static str, LineFault> {
    let text = format!(in alloc;
        "{{\"call\":\"FsWrite\",\"pool\":\"p\",\"name\":\"a\",\"sector\":0{members}}}"
    );
    match text {
        Ok(text) => read(alloc, text.as_bytes()),
        Err(_) => Err(LineFault::OutOfMemory),
    }
}

#[test]
fn bytes_of_a_write_come_in_hex_or_as_one_byte(rt: HostRuntime) -> Result<()> {
    let alloc = rt.alloc();
    let digits = "0aF9".repeat(alloc, 256)?;
    for (members, want) in [
        (r#","fill":255,"sectors":1"#, Ok("FsWrite")),
        (r#","fill":256,"sectors":1"#, Err(BadCall(Member::Fill))),
        (r#","sectors":1"#, Err(BadCall(Member::Fill))),
        (r#","fill":0"#, Err(BadCall(Member::Sectors))),
        (
            r#","hex":null,"fill":0,"sectors":1"#,
            Err(BadCall(Member::Hex)),
        ),
        (r#","hex":"","fill":999"#, Ok("FsWrite")),
        (r#","hex":"0""#, Err(BadCall(Member::Hex))),
        (r#","hex":"00""#, Err(BadCall(Member::Hex))),
        (r#","hex":"0g""#, Err(BadCall(Member::Hex))),
    ] {
        assert_eq!(rt; write(alloc, members), want, "at {members}");
    }
    for (digits, want) in [
        (digits.as_str(), Ok("FsWrite")),
        (&digits.as_str()[2..], Err(BadCall(Member::Hex))),
        (&digits.as_str()[1..], Err(BadCall(Member::Hex))),
    ] {
        let members = format!(in alloc; ",\"hex\":\"{digits}\"")?;
        assert_eq!(rt;
            write(alloc, members.as_str()),
            want,
            "at {} digits",
            digits.len()
        );
    }
    Ok(())
}

#[test]
fn nesting_may_be_127_deep(rt: HostRuntime) -> Result<()> {
    let alloc = rt.alloc();
    for (depth, want) in [(126, Ok("Check")), (127, Err(BadCall(Member::Line)))] {
        let open = "[".repeat(alloc, depth)?;
        let shut = "]".repeat(alloc, depth)?;
        let line = format!(in alloc;
            "{{\"call\":\"Check\",\"pool\":\"p\",\"colour\":{open}{shut}}}"
        )?;
        assert_eq!(rt;
            read(alloc, line.as_bytes()),
            want,
            "at {depth} lists in the object"
        );
    }
    Ok(())
}

#[test]
fn a_lane_is_below_the_lanes(rt: HostRuntime) -> Result<()> {
    for (line, lanes, want) in [
        (r#"{"call":"EngineStateReport"}"#, 1, Some(0)),
        (r#"{"call":"EngineStateReport","lane":0}"#, 1, Some(0)),
        (r#"{"call":"EngineStateReport","lane":1}"#, 1, None),
        (r#"{"call":"EngineStateReport","lane":7}"#, 8, Some(7)),
        (r#"{"call":"EngineStateReport","lane":8}"#, 8, None),
        (
            r#"{"call":"EngineStateReport","lane":7,"lane":2}"#,
            3,
            Some(2),
        ),
    ] {
        let lane = read_call(rt.alloc(), line.as_bytes(), lanes)
            .map(|(lane, _call)| lane)
            .ok();
        assert_eq!(rt; lane, want, "at {line} of {lanes} lanes");
    }
    Ok(())
}

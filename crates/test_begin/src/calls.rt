// Each call with ample memory: what it answers, and what the devices stand for when the engine is closed behind it.
use crate::engine::run;
use crate::said::Line;
use crate::site::three;
use st_rack::Rack;
use std::test::Fail;

const LINES: [Line; 14] = [
    Line::Create("tank", &["/dev/sim0", "/dev/sim1"]),
    Line::Create("tank", &["/dev/sim1", "/dev/sim0"]),
    Line::Rename("tank", "pond"),
    Line::Rename("tank", "pond"),
    Line::Report,
    Line::Stop("pond"),
    Line::Stop("pond"),
    Line::Start("pond"),
    Line::Create("lake", &["/dev/sim2"]),
    Line::Stop("lake"),
    Line::Report,
    Line::Destroy("lake"),
    Line::Destroy("pond"),
    Line::Create("pool", &["/dev/sim1"]),
];

/// What each is answered, and what a report shows in the next engine on these devices.
const ROWS: [(&str, &str); 14] = [
    ("made 1 on 2. ", "free /dev/sim2; next 2; 1 tank stopped;. "),
    ("unchanged. ", "free /dev/sim2; next 2; 1 tank stopped;. "),
    ("changed 1. ", "free /dev/sim2; next 2; 1 pond stopped;. "),
    ("refused 13. ", "free /dev/sim2; next 2; 1 pond stopped;. "),
    (
        "free /dev/sim2; next 2; 1 pond up;. ",
        "free /dev/sim2; next 2; 1 pond stopped;. ",
    ),
    ("changed 1. ", "free /dev/sim2; next 2; 1 pond stopped;. "),
    ("unchanged. ", "free /dev/sim2; next 2; 1 pond stopped;. "),
    ("changed 1. ", "free /dev/sim2; next 2; 1 pond stopped;. "),
    (
        "made 2 on 1. ",
        "free; next 3; 2 lake stopped; 1 pond stopped;. ",
    ),
    (
        "changed 2. ",
        "free; next 3; 2 lake stopped; 1 pond stopped;. ",
    ),
    (
        "free; next 3; 1 pond up; 2 lake stopped;. ",
        "free; next 3; 2 lake stopped; 1 pond stopped;. ",
    ),
    (
        "refused 11. ",
        "free; next 3; 2 lake stopped; 1 pond stopped;. ",
    ),
    (
        "changed 1. ",
        "free /dev/sim0 /dev/sim1; next 3; 2 lake stopped;. ",
    ),
    (
        "made 3 on 1. ",
        "free /dev/sim0; next 4; 2 lake stopped; 3 pool stopped;. ",
    ),
];

#[test]
fn each_call_is_answered_and_kept(rt: HostRuntime) -> Result<(), Fail> {
    let alloc = rt.alloc();
    let mut replies = String::new(alloc);
    for (i, (reply, shown)) in ROWS.iter().enumerate() {
        replies.push_str(reply)?;
        let (said, mut rack) = run(&rt, alloc, three(alloc)?, &LINES[..i + 1])?;
        assert_eq!(rt; said.as_str(), replies.as_str(), "line {i}");
        rack.cycle();
        let (said, _) = run(&rt, alloc, rack, &[Line::Report])?;
        assert_eq!(rt; said.as_str(), *shown, "after line {i}");
    }
    Ok(())
}

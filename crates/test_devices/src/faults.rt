// Each device call of a run fails in turn.
use crate::may::{BLANK, May, Said, Step, after, may_show, said_in};
use crate::run::{Ran, run};
use crate::site::{Failing, arm, two};
use st_memrack::{Kind, Pick};
use st_rack::Rack;
use std::alloc::Global;
use std::sync::Wait;
use std::test::Fail;
use std::thread::Threads;

/// A pool's life, in which the pool may be down to the end.
const LIFE: &[Step] = &[
    Step::Create,
    Step::Rename,
    Step::StopQ,
    Step::StartQ,
    Step::Destroy,
];

/// The same, where the pool is started again whatever its name is.
const MENDED: &[Step] = &[
    Step::Create,
    Step::StopP,
    Step::StartP,
    Step::Rename,
    Step::StopP,
    Step::StopQ,
    Step::StartP,
    Step::StartQ,
    Step::Destroy,
];

fn input_of(alloc: Global, script: &[Step]) -> Result<String, Fail> {
    let mut input = String::new(alloc);
    for step in script {
        input.push_str(step.line())?;
        input.push_str("\n")?;
    }
    Ok(input)
}

/// What the devices may stand for after a run that is done, in which one call met the fault.
fn told(script: &[Step], bytes: &[u8]) -> Option<May> {
    let Ok(text) = str::from_utf8(bytes) else {
        return None;
    };
    let mut may = BLANK;
    let mut faults: u64 = 0;
    for (step, line) in script.iter().zip(text.lines()) {
        let said = said_in(line);
        if said == Said::Fault {
            faults = faults.saturating_add(1);
        }
        may = after(may, *step, said);
    }
    if faults == 1 { Some(may) } else { None }
}

/// What they may stand for after a run in which a device failed, which ends in one of two ways.
fn may_be(script: &[Step], ran: &Ran) -> Option<May> {
    if ran.is_done() {
        return told(script, ran.bytes());
    }
    if ran.is_open_fault() && ran.bytes().is_empty() {
        return Some(BLANK);
    }
    None
}

/// What became of a call that was to fail.
enum Met {
    NoCall,
    Right,
    Wrong,
}

/// Runs the script while a call fails, and the report in the next run, once the power was cut.
fn fail_once<W: Threads + Wait + Copy + Sync>(
    rt: &W,
    alloc: Global,
    script: &[Step],
    failing: &Failing,
    pick: Pick,
) -> Result<Met, Fail> {
    let input = input_of(alloc, script)?;
    let mut rack = two(alloc, 8_192)?;
    arm(alloc, &mut rack, failing, 8_191)?;
    rack.pick(pick);
    let ran = run(rt, alloc, rack, input.as_str())?;
    if ran.rack.faults() == 0 {
        return Ok(Met::NoCall);
    }
    let Some(may) = may_be(script, &ran) else {
        return Ok(Met::Wrong);
    };
    let mut rack = ran.rack;
    rack.cycle();
    let again = run(rt, alloc, rack, r#"{"call":"EngineStateReport"}"#)?;
    if again.is_done() && may_show(may, again.bytes()) {
        Ok(Met::Right)
    } else {
        Ok(Met::Wrong)
    }
}

/// The calls of a kind that a device gets, of which there are so many at least.
struct Row {
    path: &'static str,
    kind: Kind,
    least: u64,
}

const ROWS: [Row; 6] = [
    Row {
        path: "/dev/sim0",
        kind: Kind::Read,
        least: 2,
    },
    Row {
        path: "/dev/sim0",
        kind: Kind::Write,
        least: 8,
    },
    Row {
        path: "/dev/sim0",
        kind: Kind::Sync,
        least: 10,
    },
    Row {
        path: "/dev/sim1",
        kind: Kind::Read,
        least: 2,
    },
    Row {
        path: "/dev/sim1",
        kind: Kind::Write,
        least: 5,
    },
    Row {
        path: "/dev/sim1",
        kind: Kind::Sync,
        least: 7,
    },
];

/// Fails where one of these calls fails and a run, or the next one, isn't as it should be.
fn check<W: Threads + Wait + Copy + Sync>(
    rt: &W,
    alloc: Global,
    script: &[Step],
    row: &Row,
    pick: Pick,
) -> Result<(), Fail> {
    for skip in 0..100 {
        let failing = Failing {
            path: row.path,
            kind: row.kind,
            skip,
        };
        match fail_once(rt, alloc, script, &failing, pick)? {
            Met::Right => {}
            Met::NoCall if skip >= row.least => return Ok(()),
            Met::NoCall => return Err(format!(in alloc; "too few: {failing:?}")?.into()),
            Met::Wrong => return Err(format!(in alloc; "{failing:?}, {pick:?}")?.into()),
        }
    }
    Err("no end".into())
}

#[test]
fn each_call_that_fails_leaves_a_pool_that_the_replies_let_stand(
    rt: HostRuntime,
) -> Result<(), Fail> {
    let alloc = rt.alloc();
    for script in [LIFE, MENDED] {
        for pick in [Pick::Old, Pick::New, Pick::Half] {
            for row in &ROWS {
                check(&rt, alloc, script, row, pick)?;
            }
        }
    }
    Ok(())
}

// A pool is started: at rest, and after a stop at each write and each sync.
ghost use Rattle.std.specs.Prelude.{IfOk};
ghost use Rattle.st_memrack.specs.MemRack.{mem_devs, mem_moment, mem_state_at};
ghost use Rattle.st_pool.specs.Starts.{HaltsSome};

use crate::site::{self, Stop, make_until, ready};
use st_assemble::found;
use st_memrack::{Kind, MemRack, Pick};
use st_model::{Env, Named, ShownMode};
use st_pool::{Ended, Halted, Made, Pool, Started};
use st_units::Name;
use std::alloc::Global;
use std::test::Fail;

fn stop(pool: Pool<MemRack>) -> Halted<MemRack>
    ensures { HaltsSome mem_devs mem_moment mem_state_at result }
{
    pool.stop()
}

/// Cuts the power.
pub fn cut(halted: Halted<MemRack>) -> Halted<MemRack>
    requires { HaltsSome mem_devs mem_moment mem_state_at halted }
    ensures { HaltsSome mem_devs mem_moment mem_state_at result }
{
    let mut halted = halted;
    halted.cycle();
    halted
}

/// Makes the pool tank, renames it to pond and ends it, until a device fails.
pub fn run(
    alloc: Global,
    first: Stop,
    second: Option<Stop>,
    pick: Pick,
) -> Result<Halted<MemRack>, Fail>
    ensures { IfOk result (λ halted. HaltsSome mem_devs mem_moment mem_state_at halted) }
{
    let new = Name::read(alloc, b"pond")?;
    match make_until(alloc, Some(first), second, pick)? {
        Made::Ready(pool) => rename(alloc, pool, new),
        Made::Broken(pool) => Ok(stop(pool)),
        Made::NoMemory(_) => Err("no memory".into()),
    }
}

fn rename(alloc: Global, pool: Pool<MemRack>, new: Name) -> Result<Halted<MemRack>, Fail>
    ensures { IfOk result (λ halted. HaltsSome mem_devs mem_moment mem_state_at halted) }
{
    let mut pool = pool;
    if !is_renamed(alloc, &mut pool, new) {
        return Ok(stop(pool));
    }
    match pool.end(alloc) {
        Ended::Broken(pool) => Ok(stop(pool)),
        Ended::Kept(pool, _) => Ok(stop(pool)),
        Ended::Gone(_) => Err("no stop".into()),
    }
}

fn is_renamed(alloc: Global, pool: &mut Pool<MemRack>, new: Name) -> bool {
    match site::rename(alloc, pool, new) {
        Some(answer) => answer.reply.code == 0,
        None => false,
    }
}

fn met(env: &Env) -> &'static str {
    match env {
        Env::Plain => "plain",
        Env::After => "after",
        Env::Before(bytes) if bytes.len() == 0 => "before",
        _ => "else",
    }
}

/// Whether a pool that was started can be renamed to lake, and is that after a power cut.
fn goes_on(alloc: Global, pool: Pool<MemRack>, lake: Name) -> bool {
    let mut pool = pool;
    let done = is_renamed(alloc, &mut pool, lake);
    match Pool::start(alloc, cut(stop(pool))) {
        Started::Up(pool, env) => {
            let is_lake = pool.name().as_str() == "lake";
            pool.stop().part();
            done && is_lake && met(&env) == "plain"
        }
        Started::Vanished(_, _) => false,
        Started::Fault(halted) => {
            halted.part();
            false
        }
        Started::NoMemory(halted) => {
            halted.part();
            false
        }
    }
}

/// As "up tank after 1": its name, what was met, and its faults.
fn said_up(alloc: Global, pool: Pool<MemRack>, env: &Env, lake: Name) -> Result<String, Fail> {
    let mut pool = pool;
    let faults = Pool::faults(&pool);
    let info = pool.view();
    let is_whole = info.mode == ShownMode::Up && info.devs.len() == 2 && info.room == 98;
    let is_given = Pool::info(&mut pool).is_some();
    let name = pool.name().copy();
    let is_sound = goes_on(alloc, pool, lake) && is_whole && is_given;
    let (name, met) = (name?, met(env));
    if !is_sound {
        return Err("it doesn't go on".into());
    }
    let name = name.as_str();
    Ok(format!(in alloc; "up {name} {met} {faults}")?)
}

/// As "gone before": what was met. The devices bear no serial where it was never made, and else the record that it is gone.
fn said_gone(alloc: Global, rack: MemRack, env: &Env) -> Result<String, Fail> {
    let mut rack = rack;
    let Ok(all) = found(alloc, &mut rack) else {
        return Err("foreign".into());
    };
    for row in all.gone.items() {
        if row.devs.len() > 0 {
            return Err("a device lacks the record".into());
        }
    }
    let met = met(env);
    let want = if met == "after" { (0, 1, 2) } else { (0, 0, 1) };
    if (all.pools.len(), all.gone.len(), all.next) != want {
        return Err("the devices stand for another state".into());
    }
    Ok(format!(in alloc; "gone {met}")?)
}

/// Starts a pool, and says what came of it.
pub fn woken(alloc: Global, halted: Halted<MemRack>, lake: Name) -> Result<String, Fail>
    requires { HaltsSome mem_devs mem_moment mem_state_at halted }
{
    match Pool::start(alloc, halted) {
        Started::Up(pool, env) => said_up(alloc, pool, &env, lake),
        Started::Vanished(rack, env) => said_gone(alloc, rack, &env),
        Started::Fault(halted) => {
            halted.part();
            Err("a fault".into())
        }
        Started::NoMemory(halted) => {
            halted.part();
            Err("no memory".into())
        }
    }
}

/// What a start says after a stop.
fn once(alloc: Global, first: Stop, pick: Pick) -> Result<String, Fail> {
    let lake = Name::read(alloc, b"lake")?;
    woken(alloc, cut(run(alloc, first, None, pick)?), lake)
}

#[test]
fn a_pool_at_rest_is_started_without_a_write(rt: HostRuntime) -> Result<(), Fail> {
    let alloc = rt.alloc();
    let (pool, env) = match Pool::start(alloc, stop(ready(alloc, None, Pick::Old)?)) {
        Started::Up(pool, env) => (pool, env),
        Started::Vanished(_, _) => return Err("gone".into()),
        Started::Fault(halted) => {
            halted.part();
            return Err("a fault".into());
        }
        Started::NoMemory(halted) => {
            halted.part();
            return Err("no memory".into());
        }
    };
    let is_tank = pool.name().as_str() == "tank" && pool.view().mode == ShownMode::Up;
    let rack = pool.stop().part();
    let calls = &rack.record().calls;
    assert!(rt; is_tank && met(&env) == "plain" && rack.record().missed == 0);
    // It was made by seven writes, each with its sync.
    for (i, call) in calls.iter().enumerate() {
        let is_sync = call.kind == Kind::Sync
            && call.dev.as_str() == ["/dev/sim0", "/dev/sim1"][i % 2];
        assert!(rt;
            i < 14 || (i < 16 && is_sync) || (i > 15 && call.kind == Kind::Read),
            "call {i}"
        );
    }
    assert!(rt; calls.len() > 20);
    Ok(())
}

/// The calls of a device, with the one that writes the record there: what a start says before it and after it.
struct Row {
    path: &'static str,
    first: u64,
    last: u64,
    record: u64,
    before: &'static str,
    after: &'static str,
}

const ROWS: [Row; 7] = [
    Row {
        path: "/dev/sim0",
        first: 0,
        last: 3,
        record: 3,
        before: "gone before",
        after: "up tank after 1",
    },
    Row {
        path: "/dev/sim0",
        first: 4,
        last: 5,
        record: 5,
        before: "up tank before 1",
        after: "up pond after 1",
    },
    Row {
        path: "/dev/sim0",
        first: 6,
        last: 7,
        record: 7,
        before: "up pond before 1",
        after: "gone after",
    },
    Row {
        path: "/dev/sim1",
        first: 0,
        last: 1,
        record: 9,
        before: "gone before",
        after: "gone before",
    },
    Row {
        path: "/dev/sim1",
        first: 2,
        last: 2,
        record: 0,
        before: "up tank after 1",
        after: "up tank after 1",
    },
    Row {
        path: "/dev/sim1",
        first: 3,
        last: 3,
        record: 0,
        before: "up pond after 1",
        after: "up pond after 1",
    },
    Row {
        path: "/dev/sim1",
        first: 4,
        last: 4,
        record: 0,
        before: "gone after",
        after: "gone after",
    },
];

/// Fails where a start says something else.
fn check(alloc: Global, rows: &[Row], kind: Kind, pick: Pick) -> Result<(), Fail> {
    for row in rows {
        for skip in row.first..row.last.saturating_add(1) {
            let is_done = skip > row.record || (skip == row.record && pick != Pick::Old);
            let want = if is_done { row.after } else { row.before };
            let path = row.path;
            let got = once(alloc, Stop { path, kind, skip }, pick)?;
            if got.as_str() != want {
                return Err(format!(in alloc;
                    "{path}, {kind:?} {skip}, {pick:?}: {got}, not {want}"
                )?.into());
            }
        }
    }
    Ok(())
}

#[test]
fn a_start_finds_the_pool_before_or_after(rt: HostRuntime) -> Result<(), Fail> {
    let alloc = rt.alloc();
    for pick in [Pick::Old, Pick::New, Pick::Half] {
        for kind in [Kind::Write, Kind::Sync] {
            check(alloc, &ROWS, kind, pick)?;
        }
    }
    Ok(())
}

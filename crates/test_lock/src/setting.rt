//! A caller of the lock that changes one pool: it runs SetFsLimit on the plain cell that its ticket has, and gives back what
//! the call left. Where the pool isn't started it answers as if memory were refused, since its part doesn't tell which
//! refusal is due.
ghost use Rattle.std.specs.Prelude.{◌≡◌, true, None, IfOk, OnErr, OnOk, option_map};
ghost use Rattle.st_model.specs.declared.entry.Entry.{Entry};
ghost use Rattle.st_model.specs.declared.state.EngineState.{EngineState};
ghost use Rattle.st_model.specs.Checks.{not_up};
ghost use Rattle.st_model.specs.Sums.{AreSmall};
ghost use Rattle.st_model.specs.Valid.{IsValid};
ghost use Rattle.st_model.specs.ValidPool.{IsWhole};
ghost use Rattle.st_plain.specs.Views.{pools_of};
ghost use Rattle.st_lock.specs.Held.{faults_in};
ghost use Rattle.st_lock.specs.Seats.{IsLater, state_at};
ghost use Rattle.test_lock.specs.Creating.{IsModels};
ghost use Rattle.test_lock.specs.Refusing.{Holds, HasRun};
ghost use Rattle.test_lock.specs.Setting.{AreOf, HasSet, IsSet, is_setting, limit_in, limited};

use crate::creating::entry_of;
use crate::plain_lock::{PlainLock, PlainSeat};
use crate::refusing::{Job, Running, arrive, job_of, wait};
use st_book::{Cells, Part};
use st_copies::pool_copy;
use st_lock::Guard;
use st_model::{Call, Entry, PoolState, Reply};
use st_plain::{PlainCell, PlainTable};
use st_settings::set_fs_limit;
use st_units::NoMemory;
use st_within::not_up;
use std::alloc::Global;
use std::sync::Wait;

fn limit_of(call: &Call) -> u64
    requires { is_setting call.now ≡ true }
    ensures { result ≡ limit_in call.now }
{
    match call {
        Call::SetFsLimit { pool: _, limit } => *limit,
        _ => unreachable!(),
    }
}

/// Sets the limit of the pool, where that is up.
fn set_in(pool: &mut PoolState, limit: u64) -> Result<Reply, NoMemory>
    requires { not_up pool.old pool.old.mode ≡ None → IsWhole pool.old }
    ensures { IfOk result (λ reply. (reply, pool.new) ≡ limited limit pool.old) }
{
    if let Some(reply) = not_up(pool)? {
        return Ok(reply);
    }
    set_fs_limit(pool, limit)
}

/// A cell whose pool has the limit, made of a copy of this one's.
fn set_cell(alloc: Global, cell: &PlainCell, limit: u64) -> Result<(Reply, PlainCell), NoMemory>
    requires small { AreSmall cell.now.pool.devices }
    requires whole { not_up cell.now.pool cell.now.pool.mode ≡ None → IsWhole cell.now.pool }
    ensures set { IfOk result (λ r. (r.0, r.1.pool) ≡ limited limit cell.now.pool) }
    ensures spare { IfOk result (λ r. r.1.spare ≡ true) }
{
    let mut pool = pool_copy(alloc, cell.pool())?;
    let reply = set_in(&mut pool, limit)?;
    let cell = PlainCell::with_spare(alloc, pool)?;
    Ok((reply, cell))
}

/// Sets the limit of the one cell that the call's ticket has.
fn set_with(alloc: Global, call: &Call, cells: &mut Cells<PlainCell>) -> Result<Reply, NoMemory>
    requires setting { is_setting call.now ≡ true }
    requires stands { (s : EngineState) × IsValid s × AreOf s call.now cells.old.items }
    ensures set { IfOk result (λ reply. (s : EngineState) → AreOf s call.now cells.old.items → IsSet s call.now reply cells.new.items) }
    ensures err { OnErr result (cells.new.items ≡ cells.old.items) }
{
    if cells.len() != 1 {
        return Err(NoMemory);
    }
    let (reply, cell) = set_cell(alloc, cells.at(0), limit_of(call))?;
    cells.replace(0, cell);
    Ok(reply)
}

/// Runs the call, and gives its entry.
fn set_on(alloc: Global, call: Call, line: u64, cells: &mut Cells<PlainCell>) -> Entry
    requires setting { is_setting call ≡ true }
    requires stands { (s : EngineState) × IsValid s × AreOf s call cells.old.items }
    ensures { (s : EngineState) → AreOf s call cells.old.items → HasSet s call line result cells.new.items }
{
    let answer = set_with(alloc, &call, cells);
    entry_of(call, line, answer)
}

/// Runs the call on what its ticket has, and gives that back with its entry.
pub fn set_and_release(
    lock: &PlainLock,
    rt: &impl Wait,
    alloc: Global,
    seat: &mut PlainSeat,
    running: Running<PlainCell, PlainTable>,
)
    requires here { seat.old.turn ≡ lock.now }
    requires setting { is_setting running.job.call ≡ true }
    requires holds { Holds seat.old running.guard.ticket running.job.call (pools_of running.guard.part.cells.items)
        (option_map (λ t. record { state = t.state; slack = 0 }) running.guard.part.table) (faults_in (λ t. 0) (λ c. 0) running.guard.part.table running.guard.part.cells.items) }
    ensures later { IsLater seat.old seat.new }
    ensures run { (e : Entry) × HasRun seat.old.own seat.new.own seat.old.number running.guard.ticket e × IsModels (state_at seat.old) running.job.call running.job.line e }
{
    let Running { guard, job } = running;
    let Job {
        call,
        line,
        mut entries,
    } = job;
    let Guard { ticket, part } = guard;
    let Part {
        table,
        table_info,
        mut cells,
        infos,
        short,
    } = part;
    entries.put(set_on(alloc, call, line, &mut cells));
    let part = Part {
        table,
        table_info,
        cells,
        infos,
        short,
    };
    lock.release(rt, seat, Guard { ticket, part }, entries);
}

/// Sets the limit of a pool under a ticket for that pool.
pub fn set_limit(
    lock: &PlainLock,
    rt: &impl Wait,
    alloc: Global,
    seat: &mut PlainSeat,
    call: Call,
    line: u64,
) -> Result<(), NoMemory>
    requires here { seat.old.turn ≡ lock.now }
    requires setting { is_setting call ≡ true }
    ensures here { seat.new.turn ≡ lock.now }
    ensures later { OnOk result (IsLater seat.old seat.new) }
{
    let job = job_of(alloc, call, line)?;
    let waiting = arrive(lock, rt, alloc, seat, job)?;
    let running = wait(lock, rt, seat, waiting);
    set_and_release(lock, rt, alloc, seat, running);
    Ok(())
}

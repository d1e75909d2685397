//! A caller of the lock that makes pools: it runs CreatePool on what its ticket has, over plain cells, and gives back what
//! the call left.
ghost use Rattle.std.specs.Prelude.{ℕ, ◌≡◌, ◌≤◌, ◌^◌, [], ◌∷◌, map, option_map, IfOk, IfSome, OnErr, OnOk};
ghost use Rattle.std.specs.List.{AllByRecursion};
ghost use Rattle.st_units.specs.declared.rows.DevRow.{DevRow};
ghost use Rattle.st_units.specs.declared.cause.Cause.TheVariants.{OutOfMemory};
ghost use Rattle.st_model.specs.declared.entry.Entry.{Entry};
ghost use Rattle.st_model.specs.declared.entry.Env.TheVariants.{NoMem, Plain};
ghost use Rattle.st_model.specs.declared.state.EngineState.{EngineState};
ghost use Rattle.st_model.specs.Answer.{refused};
ghost use Rattle.st_model.specs.Sound.{IsSound};
ghost use Rattle.st_model.specs.Valid.{IsValid};
ghost use Rattle.st_plain.specs.Parts.{PartIs, IsAnswered};
ghost use Rattle.st_plain.specs.Views.{pools_of};
ghost use Rattle.st_lock.specs.Held.{faults_in};
ghost use Rattle.st_lock.specs.Seats.{IsLater, state_at};
ghost use Rattle.test_lock.specs.Creating.{HasMade, IsCreation, IsModels};
ghost use Rattle.test_lock.specs.Refusing.{Holds, HasRun};

use crate::plain_lock::{PlainLock, PlainSeat};
use crate::refusing::{Job, Running, arrive, job_of, wait};
use st_book::{Cells, Part};
use st_lock::Guard;
use st_model::{Board, Call, Cell, Entry, EntryList, Env, Origin, Reply};
use st_plain::{PlainCell, PlainTable, create};
use st_units::{Cause, NoMemory};
use std::alloc::Global;
use std::sync::Wait;

/// The entry of a line's call with this answer, or without memory.
pub(crate) fn entry_of(call: Call, line: u64, answer: Result<Reply, NoMemory>) -> Entry
    ensures call { result.call ≡ call }
    ensures from { result.from ≡ Origin.Line line }
    ensures plain { IfOk answer (λ reply. (result.reply ≡ reply) × (result.env ≡ Plain)) }
    ensures refused { OnErr answer ((result.reply ≡ refused OutOfMemory) × (result.env ≡ NoMem)) }
{
    let (env, reply) = match answer {
        Ok(reply) => (Env::Plain, reply),
        Err(NoMemory) => (Env::NoMem, Reply::refused(Cause::OutOfMemory)),
    };
    Entry {
        call,
        env,
        from: Origin::Line(line),
        reply,
    }
}

/// Runs the creation on the cells and the table.
fn create_with(
    alloc: Global,
    call: &Call,
    cells: &mut Cells<PlainCell>,
    table: &mut PlainTable,
) -> Result<Reply, NoMemory>
    requires creation { IsCreation call.now }
    requires next { 1 ≤ table.old.state.next }
    requires rack { AllByRecursion (λ (row : DevRow). row.sectors ≤ 2 ^ 32) table.old.state.devices }
    ensures answered { IfOk result (λ reply. (s : EngineState) → IsValid s → PartIs s (pools_of cells.old.items) table.old.state → IsAnswered s call.now reply cells.new.items table.new) }
    ensures cells { OnErr result (cells.new.items ≡ cells.old.items) }
    ensures table { OnErr result (table.new ≡ table.old) }
{
    match call {
        Call::CreatePool { name, devices } => create(alloc, cells, table, name, devices),
        _ => unreachable!(),
    }
}

/// Runs the creation, and gives its entry.
fn create_on(
    alloc: Global,
    call: Call,
    line: u64,
    cells: &mut Cells<PlainCell>,
    table: &mut PlainTable,
) -> Entry
    requires creation { IsCreation call }
    requires stands { (s : EngineState) × IsValid s × PartIs s (pools_of cells.old.items) table.old.state }
    ensures made { (s : EngineState) → IsValid s → PartIs s (pools_of cells.old.items) table.old.state → HasMade s call line result cells.new.items table.new }
{
    let answer = create_with(alloc, &call, cells, table);
    entry_of(call, line, answer)
}

/// Runs the creation on what its ticket has, and gives that back with its entry.
pub fn create_and_release(
    lock: &PlainLock,
    rt: &impl Wait,
    alloc: Global,
    seat: &mut PlainSeat,
    running: Running<PlainCell, PlainTable>,
)
    requires here { seat.old.turn ≡ lock.now }
    requires creation { IsCreation running.job.call }
    requires holds { Holds seat.old running.guard.ticket running.job.call (pools_of running.guard.part.cells.items)
        (option_map (λ t. record { state = t.state; slack = 0 }) running.guard.part.table) (faults_in (λ t. 0) (λ c. 0) running.guard.part.table running.guard.part.cells.items) }
    ensures later { IsLater seat.old seat.new }
    ensures run { (e : Entry) × HasRun seat.old.own seat.new.own seat.old.number running.guard.ticket e × IsModels (state_at seat.old) running.job.call running.job.line e }
{
    let Running { guard, job } = running;
    let Job {
        call,
        line,
        mut entries,
    } = job;
    let Guard { ticket, part } = guard;
    let Part {
        table,
        table_info,
        mut cells,
        infos,
        short,
    } = part;
    let Some(mut table) = table else {
        unreachable!()
    };
    entries.put(create_on(alloc, call, line, &mut cells, &mut table));
    let part = Part {
        table: Some(table),
        table_info,
        cells,
        infos,
        short,
    };
    lock.release(rt, seat, Guard { ticket, part }, entries);
}

/// Makes a pool under a ticket for all.
pub fn create_pool(
    lock: &PlainLock,
    rt: &impl Wait,
    alloc: Global,
    seat: &mut PlainSeat,
    call: Call,
    line: u64,
) -> Result<(), NoMemory>
    requires here { seat.old.turn ≡ lock.now }
    requires creation { IsCreation call }
    ensures here { seat.new.turn ≡ lock.now }
    ensures later { OnOk result (IsLater seat.old seat.new) }
{
    let job = job_of(alloc, call, line)?;
    let waiting = arrive(lock, rt, alloc, seat, job)?;
    let running = wait(lock, rt, seat, waiting);
    create_and_release(lock, rt, alloc, seat, running);
    Ok(())
}

//! A caller of the lock, over any cells and any table, for every want. It does with a line's call what the engine does: it
//! takes the memory of the want and of the entry, arrives, is granted and releases. The call itself is refused memory, so
//! what its ticket has goes back as it came.
ghost use Rattle.std.specs.Prelude.{◌≡◌, ◌≤◌, ◌<◌, ◌∷◌, ◌++◌, [], length, map, min, ◌^◌, ◌-◌, option_map, IfOk, IfErr, OnOk, OnErr, IfSome};
ghost use Rattle.std.specs.List.{AllByRecursion};
ghost use Rattle.std.proofs.Props.{props};
ghost use Rattle.st_model.specs.Sound.{IsSound};
ghost use Rattle.st_model.specs.Wanted.{want_of};
ghost use Rattle.st_book.specs.Noted.{grant_with};
ghost use Rattle.st_lock.specs.Held.{faults_in};
ghost use Rattle.st_lock.specs.Seats.{IsLater, plain};
ghost use Rattle.test_lock.specs.Refusing.{Awaits, Holds, HasRun, HasServed, refused_entry};

use st_book::Event;
use st_lock::{AllOrSome, Guard, Seat, Ticket, Tried};
use st_model::{Board, Call, Cell, Entry, EntryList, Env, Origin, Reply, want_of};
use st_units::{Cause, NoMemory};
use std::alloc::Global;
use std::sync::Wait;

/// A line's call, with room for its entry.
#[derive(Drop)]
pub struct Job {
    pub call: Call,
    pub line: u64,
    pub(crate) entries: EntryList,
    ghost empty: { length entries.items ≡ 0 } by { Prim.hlevel props },
    ghost room: { 1 ≤ entries.room } by { Prim.hlevel props },
}

/// A job whose ticket waits.
pub struct Waiting {
    pub ticket: Ticket,
    pub job: Job,
}

/// A job whose ticket is granted.
pub struct Running<C: Cell, T: Board> {
    pub guard: Guard<C, T>,
    pub job: Job,
}

/// The entry of a line's call to which memory was refused.
pub fn refused_entry(call: Call, line: u64) -> Entry
    ensures { result ≡ refused_entry call line }
{
    Entry {
        call,
        env: Env::NoMem,
        from: Origin::Line(line),
        reply: Reply::refused(Cause::OutOfMemory),
    }
}

/// The job of a line's call.
pub fn job_of(alloc: Global, call: Call, line: u64) -> Result<Job, NoMemory>
    ensures { IfOk result (λ job. (job.call ≡ call) × (job.line ≡ line)) }
{
    let entries = EntryList::with_room(alloc, 1)?;
    Ok(Job {
        call,
        line,
        entries,
    })
}

/// Arrives with what the job's call wants.
pub fn arrive<C: Cell, T: Board>(
    lock: &AllOrSome<C, T>,
    rt: &impl Wait,
    alloc: Global,
    seat: &mut Seat<C, T>,
    job: Job,
) -> Result<Waiting, NoMemory>
    requires here { seat.old.turn ≡ lock.now }
    requires sound { IsSound job.call }
    ensures here { seat.new.turn ≡ lock.now }
    ensures later { OnOk result (IsLater seat.old seat.new) }
    ensures waits { IfOk result (λ w. Awaits seat.new w.ticket.number w.job.call) }
    ensures job { IfOk result (λ w. (w.job.call ≡ job.call) × (w.job.line ≡ job.line)) }
    ensures own { IfOk result (λ w. seat.new.own ≡ seat.old.own ++ plain (Event.Arrive seat.old.number w.ticket.number (want_of job.call)) ∷ []) }
{
    let want = want_of(&job.call)?;
    match lock.arrive(rt, alloc, seat, want) {
        Ok(ticket) => Ok(Waiting { ticket, job }),
        Err(_) => Err(NoMemory),
    }
}

/// Has the job run where its ticket is granted; else it waits on, and the least ticket that keeps it back is told.
pub fn try_once<C: Cell, T: Board>(
    lock: &AllOrSome<C, T>,
    rt: &impl Wait,
    seat: &mut Seat<C, T>,
    waiting: Waiting,
) -> Result<Running<C, T>, (Waiting, u64)>
    requires here { seat.old.turn ≡ lock.now }
    requires waits { Awaits seat.old waiting.ticket.number waiting.job.call }
    ensures later { IsLater seat.old seat.new }
    ensures holds { IfOk result (λ r. Holds seat.new r.guard.ticket r.job.call (map C.state r.guard.part.cells.items)
        (option_map (λ t. record { state = T.stands t; slack = T.slack t }) r.guard.part.table) (faults_in T.fault_count C.fault_count r.guard.part.table r.guard.part.cells.items)) }
    ensures kept { IfOk result (λ r. AllByRecursion C.is_kept r.guard.part.cells.items × IfSome r.guard.part.table T.is_kept) }
    ensures job { IfOk result (λ r. (r.job.call ≡ waiting.job.call) × (r.job.line ≡ waiting.job.line)) }
    ensures back { IfErr result (λ e. Awaits seat.new e.0.ticket.number e.0.job.call) }
{
    let Waiting { ticket, job } = waiting;
    match lock.try_grant(rt, seat, ticket) {
        Tried::Granted(guard) => Ok(Running { guard, job }),
        Tried::NotYet(ticket, blocker) => Err((Waiting { ticket, job }, blocker)),
    }
}

/// Waits until the job runs.
pub fn wait<C: Cell, T: Board>(
    lock: &AllOrSome<C, T>,
    rt: &impl Wait,
    seat: &mut Seat<C, T>,
    waiting: Waiting,
) -> Running<C, T>
    requires here { seat.old.turn ≡ lock.now }
    requires waits { Awaits seat.old waiting.ticket.number waiting.job.call }
    ensures later { IsLater seat.old seat.new }
    ensures holds { Holds seat.new result.guard.ticket result.job.call (map C.state result.guard.part.cells.items)
        (option_map (λ t. record { state = T.stands t; slack = T.slack t }) result.guard.part.table) (faults_in T.fault_count C.fault_count result.guard.part.table result.guard.part.cells.items) }
    ensures kept { AllByRecursion C.is_kept result.guard.part.cells.items × IfSome result.guard.part.table T.is_kept }
    ensures job { (result.job.call ≡ waiting.job.call) × (result.job.line ≡ waiting.job.line) }
    ensures own { (result.guard.ticket ≡ waiting.ticket.number) × (seat.new.own ≡ seat.old.own ++ grant_with seat.old.number waiting.ticket.number (min (faults_in T.fault_count C.fault_count result.guard.part.table result.guard.part.cells.items) (2 ^ 64 - 1)) ∷ []) }
{
    let Waiting { ticket, job } = waiting;
    let guard = lock.acquire(rt, seat, ticket);
    Running { guard, job }
}

/// Gives the part of a job back as it came, with the entry of its call.
pub fn give_back<C: Cell, T: Board>(
    lock: &AllOrSome<C, T>,
    rt: &impl Wait,
    seat: &mut Seat<C, T>,
    running: Running<C, T>,
)
    requires here { seat.old.turn ≡ lock.now }
    requires holds { Holds seat.old running.guard.ticket running.job.call (map C.state running.guard.part.cells.items)
        (option_map (λ t. record { state = T.stands t; slack = T.slack t }) running.guard.part.table) (faults_in T.fault_count C.fault_count running.guard.part.table running.guard.part.cells.items) }
    requires kept { AllByRecursion C.is_kept running.guard.part.cells.items × IfSome running.guard.part.table T.is_kept }
    ensures later { IsLater seat.old seat.new }
    ensures run { HasRun seat.old.own seat.new.own seat.old.number running.guard.ticket (refused_entry running.job.call running.job.line) }
{
    let Running { guard, job } = running;
    let Job {
        call,
        line,
        mut entries,
    } = job;
    entries.put(refused_entry(call, line));
    lock.release(rt, seat, guard, entries);
}

/// Runs a line's call under its grant, once this comes.
pub fn run_refused<C: Cell, T: Board>(
    lock: &AllOrSome<C, T>,
    rt: &impl Wait,
    alloc: Global,
    seat: &mut Seat<C, T>,
    call: Call,
    line: u64,
) -> Result<(), NoMemory>
    requires here { seat.old.turn ≡ lock.now }
    requires sound { IsSound call }
    ensures here { seat.new.turn ≡ lock.now }
    ensures later { OnOk result (IsLater seat.old seat.new) }
    ensures served { OnOk result (HasServed seat.old.own seat.new.own seat.old.number (refused_entry call line)) }
{
    let job = job_of(alloc, call, line)?;
    let waiting = arrive(lock, rt, alloc, seat, job)?;
    let running = wait(lock, rt, seat, waiting);
    give_back(lock, rt, seat, running);
    Ok(())
}

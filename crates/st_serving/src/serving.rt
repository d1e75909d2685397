ghost use Rattle.std.specs.Prelude.{◌≡◌, ◌≤◌, ◌<◌, ◌∷◌, ◌++◌, [], length, map, min, ◌^◌, ◌-◌, false, option_map, IfOk, OnOk, OnErr, IfSome, IsSomeAnd, Some, true, ◌+◌};
ghost use Rattle.std.specs.List.{AllByRecursion};
ghost use Rattle.std.proofs.Props.{props};
ghost use Rattle.st_model.specs.Parts.{pool_at, started, table_of, shown_table};
ghost use Rattle.st_model.specs.Shown.{pool_info};
ghost use Rattle.st_model.specs.Sound.{IsSound};
ghost use Rattle.st_model.specs.Wanted.{want_of};
ghost use Rattle.st_history.specs.Failures.{failures_of};
ghost use Rattle.st_book.specs.Noted.{grant_with};
ghost use Rattle.st_book.specs.Stands.{ComesBack, PartShows};
ghost use Rattle.st_lock.specs.Held.{Rose, faults_in};
ghost use Rattle.st_lock.specs.Seats.{IsHeard, IsLater, own_row, plain, state_at};
ghost use Rattle.st_serving.specs.Serving.{Awaits, HasReleased, HasStayed, Holds};

use st_book::Event;
use st_lock::{AllOrSome, Guard, Seat, Ticket};
use st_model::{Board, Call, Cell, Entry, EntryList, Origin, want_of};
use st_units::NoMemory;
use std::alloc::Global;
use std::sync::Wait;

/// A call, with room for its entry.
#[derive(Drop)]
pub struct Job {
    pub call: Call,
    /// Who made the call.
    pub from: Origin,
    pub entries: EntryList,
    ghost empty: { length entries.items ≡ 0 } by { Prim.hlevel props },
    ghost room: { 1 ≤ entries.room } by { Prim.hlevel props },
}

/// A job whose ticket waits.
pub struct Waiting {
    pub ticket: Ticket,
    pub job: Job,
}

/// A job whose ticket is granted.
pub struct Running<C: Cell, T: Board> {
    pub guard: Guard<C, T>,
    pub job: Job,
}

/// The job of a call.
pub fn job_of(alloc: Global, call: Call, from: Origin) -> Result<Job, NoMemory>
    ensures { IfOk result (λ job. (job.call ≡ call) × (job.from ≡ from)) }
{
    let entries = EntryList::with_room(alloc, 1)?;
    Ok(Job {
        call,
        from,
        entries,
    })
}

/// Arrives with what the job's call wants.
pub fn arrive<C: Cell, T: Board>(
    lock: &AllOrSome<C, T>,
    rt: &impl Wait,
    alloc: Global,
    seat: &mut Seat<C, T>,
    job: Job,
) -> Result<Waiting, NoMemory>
    requires here { seat.old.turn ≡ lock.now }
    requires sound { IsSound job.call }
    ensures here { seat.new.turn ≡ lock.now }
    ensures later { OnOk result (IsLater seat.old seat.new) }
    ensures waits { IfOk result (λ w. Awaits seat.new w.ticket.number w.job.call) }
    ensures job { IfOk result (λ w. (w.job.call ≡ job.call) × (w.job.from ≡ job.from)) }
    ensures own { IfOk result (λ w. seat.new.own ≡ seat.old.own ++ plain (Event.Arrive seat.old.number w.ticket.number (want_of job.call)) ∷ []) }
    ensures stayed { OnErr result (HasStayed seat.old seat.new) }
{
    let want = want_of(&job.call)?;
    match lock.arrive(rt, alloc, seat, want) {
        Ok(ticket) => Ok(Waiting { ticket, job }),
        Err(_) => Err(NoMemory),
    }
}

/// Waits until the job's ticket is granted.
pub fn wait<C: Cell, T: Board>(
    lock: &AllOrSome<C, T>,
    rt: &impl Wait,
    seat: &mut Seat<C, T>,
    waiting: Waiting,
) -> Running<C, T>
    requires here { seat.old.turn ≡ lock.now }
    requires waits { Awaits seat.old waiting.ticket.number waiting.job.call }
    ensures later { IsLater seat.old seat.new }
    ensures holds { Holds seat.new result.guard.ticket result.job.call (map C.state result.guard.part.cells.items)
        (option_map (λ t. record { state = T.stands t; slack = T.slack t }) result.guard.part.table) (faults_in T.fault_count C.fault_count result.guard.part.table result.guard.part.cells.items) }
    ensures shown { result.guard.part.short ≡ false → PartShows (want_of result.job.call) (state_at seat.new) (map C.shows result.guard.part.infos.items) (option_map T.shows result.guard.part.table_info) }
    ensures kept { AllByRecursion C.is_kept result.guard.part.cells.items × IfSome result.guard.part.table T.is_kept }
    ensures places { 16 ≤ length result.guard.part.cells.items + result.guard.part.cells.room }
    ensures job { (result.job.call ≡ waiting.job.call) × (result.job.from ≡ waiting.job.from) }
    ensures own { (result.guard.ticket ≡ waiting.ticket.number) × (seat.new.own ≡ seat.old.own ++ grant_with seat.old.number waiting.ticket.number (min (faults_in T.fault_count C.fault_count result.guard.part.table result.guard.part.cells.items) (2 ^ 64 - 1)) ∷ []) }
{
    let Waiting { ticket, job } = waiting;
    let guard = lock.acquire(rt, seat, ticket);
    Running { guard, job }
}

/// Gives back what a ticket has, with the entry of its call.
pub fn release<C: Cell, T: Board>(
    lock: &AllOrSome<C, T>,
    rt: &impl Wait,
    seat: &mut Seat<C, T>,
    guard: Guard<C, T>,
    entries: EntryList,
    entry: Entry,
)
    requires here { seat.old.turn ≡ lock.now }
    requires empty { entries.items ≡ [] }
    requires room { 1 ≤ entries.room }
    requires live { IsSomeAnd (own_row guard.ticket seat.old) (λ r. r.live ≡ true) }
    requires heard { IsHeard seat.old }
    requires back { IfSome (own_row guard.ticket seat.old) (λ r. ComesBack r.want (state_at seat.old) seat.old.opening.base (entry ∷ [])
        (map C.state guard.part.cells.items) (option_map (λ t. record { state = T.stands t; slack = T.slack t }) guard.part.table)) }
    requires spares { AllByRecursion (λ c. C.has_spare c ≡ false → option_map pool_info (pool_at (C.named c) (started (state_at seat.old))) ≡ Some (pool_info (C.state c))) guard.part.cells.items }
    requires spare { IfSome guard.part.table (λ t. T.has_spare t ≡ false → shown_table (table_of (state_at seat.old)) ≡ shown_table (T.stands t)) }
    requires rose { Rose seat.old guard.ticket (faults_in T.fault_count C.fault_count guard.part.table guard.part.cells.items) (failures_of (entry ∷ [])) }
    requires kept { AllByRecursion C.is_kept guard.part.cells.items × IfSome guard.part.table T.is_kept }
    ensures later { IsLater seat.old seat.new }
    ensures released { HasReleased seat.old.own seat.new.own seat.old.number guard.ticket entry }
{
    let mut entries = entries;
    entries.put(entry);
    lock.release(rt, seat, guard, entries);
}

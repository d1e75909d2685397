// What tests ask of the lock, with ample memory: a refusal ends the test, and so does another answer than the expected one.
ghost use Rattle.std.specs.Prelude.{◌≡◌, map, option_map, true, IfSome};
ghost use Rattle.std.specs.List.{AllByRecursion};
ghost use Rattle.st_model.specs.Sound.{IsSound};
ghost use Rattle.st_lock.specs.Held.{faults_in};
ghost use Rattle.test_lock.specs.Creating.{IsCreation};
ghost use Rattle.test_lock.specs.Refusing.{Awaits, Holds};
ghost use Rattle.test_lock.specs.Setting.{is_setting};

use crate::plain_lock::{PlainLock, PlainSeat, open};
use crate::refusing::{Running, Waiting, arrive, job_of, try_once};
use st_book::{Log, Peek};
use st_lock::{AllOrSome, Seat, Shut};
use st_model::{Board, Call, Cell};
use st_plain::{PlainCell, PlainTable};
use st_units::{DevList, DevPath, Name, NameList, NoMemory};
use st_wants::Names;
use std::alloc::Global;
use std::process::Abort;
use std::sync::Wait;

/// A lock over a table without pools, and its first seat.
pub fn new_lock(rt: &impl Abort, alloc: Global) -> (PlainLock, PlainSeat)
    ensures { result.1.turn ≡ result.0 }
{
    match open(alloc) {
        Ok(made) => made,
        Err(_) => panic!(rt; "no memory for a lock"),
    }
}

/// A further seat.
pub fn further<C: Cell, T: Board>(
    rt: &impl Abort,
    lock: &AllOrSome<C, T>,
    seat: &mut Seat<C, T>,
) -> Seat<C, T>
    requires here { seat.old.turn ≡ lock.now }
    ensures here { (seat.new.turn ≡ lock.now) × (result.turn ≡ lock.now) }
{
    match lock.split(seat) {
        Ok(other) => other,
        Err(_) => panic!(rt; "no further seat"),
    }
}

fn name_of(rt: &impl Abort, alloc: Global, pool: &str) -> Name {
    match Name::read(alloc, pool.as_bytes()) {
        Ok(name) => name,
        Err(_) => panic!(rt; "no memory for a name"),
    }
}

/// A call that wants to write to the pool.
pub fn check_of(rt: &impl Abort, alloc: Global, pool: &str) -> Call
    ensures { IsSound result }
{
    Call::Check {
        pool: name_of(rt, alloc, pool),
    }
}

/// The call that makes the pool on the one device.
pub fn creation_of(rt: &impl Abort, alloc: Global, pool: &str) -> Call
    ensures { IsCreation result }
{
    let mut devices = DevList::make(alloc);
    let Ok(path) = DevPath::read(alloc, b"/dev/sim0") else {
        panic!(rt; "no memory for a path");
    };
    match devices.push(path) {
        Ok(()) => Call::CreatePool {
            name: name_of(rt, alloc, pool),
            devices,
        },
        Err(_) => panic!(rt; "no memory for a list"),
    }
}

/// The call that sets how many filesystems the pool may have.
pub fn limit_of(rt: &impl Abort, alloc: Global, pool: &str, limit: u64) -> Call
    ensures { is_setting result ≡ true }
{
    Call::SetFsLimit {
        pool: name_of(rt, alloc, pool),
        limit,
    }
}

/// A call that wants to read the pools.
pub fn reports_of(rt: &impl Abort, alloc: Global, names: &[&str]) -> Call
    ensures { IsSound result }
{
    let mut pools = NameList::make(alloc);
    for name in names {
        if let Err(_) = pools.push(name_of(rt, alloc, name)) {
            panic!(rt; "no memory for a list");
        }
    }
    match Names::read(&pools) {
        Ok(_names) => Call::PoolReports { pools },
        Err(_) => panic!(rt; "not 1 to 8 names"),
    }
}

/// A ticket for the call.
pub fn ask<C: Cell, T: Board>(
    rt: &(impl Wait + Abort),
    lock: &AllOrSome<C, T>,
    alloc: Global,
    seat: &mut Seat<C, T>,
    call: Call,
) -> Waiting
    requires here { seat.old.turn ≡ lock.now }
    requires sound { IsSound call }
    ensures here { seat.new.turn ≡ lock.now }
    ensures waits { Awaits seat.new result.ticket.number result.job.call }
    ensures call { result.job.call ≡ call }
{
    let Ok(job) = job_of(alloc, call, 1) else {
        panic!(rt; "no memory for an entry");
    };
    match arrive(lock, rt, alloc, seat, job) {
        Ok(waiting) => waiting,
        Err(_) => panic!(rt; "no memory for a ticket"),
    }
}

/// The ticket is granted, and nothing that its part shows is missing.
pub fn granted<C: Cell, T: Board>(
    rt: &(impl Wait + Abort),
    lock: &AllOrSome<C, T>,
    seat: &mut Seat<C, T>,
    waiting: Waiting,
) -> Running<C, T>
    requires here { seat.old.turn ≡ lock.now }
    requires waits { Awaits seat.old waiting.ticket.number waiting.job.call }
    ensures here { seat.new.turn ≡ lock.now }
    ensures holds { Holds seat.new result.guard.ticket result.job.call (map C.state result.guard.part.cells.items)
        (option_map (λ t. record { state = T.stands t; slack = T.slack t }) result.guard.part.table) (faults_in T.fault_count C.fault_count result.guard.part.table result.guard.part.cells.items) }
    ensures kept { AllByRecursion C.is_kept result.guard.part.cells.items × IfSome result.guard.part.table T.is_kept }
    ensures call { result.job.call ≡ waiting.job.call }
{
    match try_once(lock, rt, seat, waiting) {
        Ok(running) => {
            assert!(rt; !running.guard.part.short);
            running
        }
        Err((_, blocker)) => panic!(rt; "ticket {blocker} keeps it back"),
    }
}

/// The ticket waits for this one.
pub fn kept_back<C: Cell, T: Board>(
    rt: &(impl Wait + Abort),
    lock: &AllOrSome<C, T>,
    seat: &mut Seat<C, T>,
    waiting: Waiting,
    blocker: u64,
) -> Waiting
    requires here { seat.old.turn ≡ lock.now }
    requires waits { Awaits seat.old waiting.ticket.number waiting.job.call }
    ensures here { seat.new.turn ≡ lock.now }
    ensures waits { Awaits seat.new result.ticket.number result.job.call }
{
    match try_once(lock, rt, seat, waiting) {
        Ok(_) => panic!(rt; "it was granted beside ticket {blocker}"),
        Err((waiting, found)) => {
            assert_eq!(rt; found, blocker, "ticket {}", waiting.ticket.number);
            waiting
        }
    }
}

/// What a look showed: how many devices are free, the next serial, and how many pools are started.
pub fn seen_by(
    rt: &impl Abort,
    shown: Result<Peek<PlainCell, PlainTable>, NoMemory>,
) -> (usize, u64, usize) {
    match shown {
        Ok(Peek { table_info, infos }) => {
            (
                table_info.value().free.len(),
                table_info.value().next,
                infos.len(),
            )
        }
        Err(_) => panic!(rt; "no memory for a look"),
    }
}

/// The log of a lock that has nothing left, but so many started pools.
pub fn quiet_log(rt: &impl Abort, lock: PlainLock, seat: PlainSeat, pools: usize) -> Log
    requires { seat.turn ≡ lock }
{
    match lock.close(seat) {
        Shut::Quiet(_table, cells, log) => {
            assert_eq!(rt; cells.len(), pools);
            log
        }
        Shut::Unjoined(_lock, _seat, others) => panic!(rt; "{others} seats are out"),
        Shut::Left(_lock, _seat, ticket) => panic!(rt; "ticket {ticket} is left"),
    }
}

/// The lock, whose close answers that the ticket is left.
pub fn left(
    rt: &impl Abort,
    lock: PlainLock,
    seat: PlainSeat,
    ticket: u64,
) -> (PlainLock, PlainSeat)
    requires { seat.turn ≡ lock }
    ensures here { result.1.turn ≡ result.0 }
    ensures own { result.1.own ≡ seat.own }
{
    match lock.close(seat) {
        Shut::Left(lock, seat, found) => {
            assert_eq!(rt; found, ticket);
            (lock, seat)
        }
        Shut::Quiet(_table, _cells, _log) => panic!(rt; "it was closed over ticket {ticket}"),
        Shut::Unjoined(_lock, _seat, others) => panic!(rt; "{others} seats are out"),
    }
}

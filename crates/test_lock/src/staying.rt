//! Callers that do more with their seat while they hold what its ticket was granted, over any cells and any table: they
//! look, take another seat in, or try to close the lock, and give back then.
ghost use Rattle.std.specs.Prelude.{◌≡◌, map, option_map, IfOk, IfSome};
ghost use Rattle.std.specs.List.{AllByRecursion};
ghost use Rattle.st_model.specs.Parts.{shown_table, table_of};
ghost use Rattle.st_lock.specs.Held.{faults_in};
ghost use Rattle.test_lock.specs.Refusing.{Holds, HasRun, refused_entry};

use crate::refusing::{Running, give_back};
use st_book::Peek;
use st_lock::{AllOrSome, Seat, Shut};
use st_model::{Board, Cell};
use st_units::NoMemory;
use std::alloc::Global;
use std::sync::Wait;

/// Looks, and gives back then.
pub fn look_and_give_back<C: Cell, T: Board>(
    lock: &AllOrSome<C, T>,
    rt: &impl Wait,
    alloc: Global,
    seat: &mut Seat<C, T>,
    running: Running<C, T>,
) -> Result<Peek<C, T>, NoMemory>
    requires here { seat.old.turn ≡ lock.now }
    requires holds { Holds seat.old running.guard.ticket running.job.call (map C.state running.guard.part.cells.items)
        (option_map (λ t. record { state = T.stands t; slack = T.slack t }) running.guard.part.table) (faults_in T.fault_count C.fault_count running.guard.part.table running.guard.part.cells.items) }
    requires kept { AllByRecursion C.is_kept running.guard.part.cells.items × IfSome running.guard.part.table T.is_kept }
    ensures here { seat.new.turn ≡ lock.now }
    ensures run { HasRun seat.old.own seat.new.own seat.old.number running.guard.ticket (refused_entry running.job.call running.job.line) }
{
    let shown = lock.peek(rt, alloc, seat);
    give_back(lock, rt, seat, running);
    shown
}

/// Takes another seat in, looks, and gives back then.
pub fn join_and_give_back<C: Cell, T: Board>(
    lock: &AllOrSome<C, T>,
    rt: &impl Wait,
    alloc: Global,
    seat: &mut Seat<C, T>,
    other: Seat<C, T>,
    running: Running<C, T>,
) -> Result<Peek<C, T>, NoMemory>
    requires here { (seat.old.turn ≡ lock.now) × (other.turn ≡ lock.now) }
    requires holds { Holds seat.old running.guard.ticket running.job.call (map C.state running.guard.part.cells.items)
        (option_map (λ t. record { state = T.stands t; slack = T.slack t }) running.guard.part.table) (faults_in T.fault_count C.fault_count running.guard.part.table running.guard.part.cells.items) }
    requires kept { AllByRecursion C.is_kept running.guard.part.cells.items × IfSome running.guard.part.table T.is_kept }
    ensures here { seat.new.turn ≡ lock.now }
    ensures run { HasRun seat.old.own seat.new.own seat.old.number running.guard.ticket (refused_entry running.job.call running.job.line) }
{
    lock.join(seat, other);
    let shown = lock.peek(rt, alloc, seat);
    give_back(lock, rt, seat, running);
    shown
}

/// Tries to close the lock, which is refused since a ticket is left, and gives back then.
pub fn close_and_give_back<C: Cell, T: Board>(
    lock: AllOrSome<C, T>,
    rt: &impl Wait,
    seat: Seat<C, T>,
    running: Running<C, T>,
) -> (AllOrSome<C, T>, Seat<C, T>)
    requires here { seat.turn ≡ lock }
    requires holds { Holds seat running.guard.ticket running.job.call (map C.state running.guard.part.cells.items)
        (option_map (λ t. record { state = T.stands t; slack = T.slack t }) running.guard.part.table) (faults_in T.fault_count C.fault_count running.guard.part.table running.guard.part.cells.items) }
    requires kept { AllByRecursion C.is_kept running.guard.part.cells.items × IfSome running.guard.part.table T.is_kept }
    ensures here { (result.0 ≡ lock) × (result.1.turn ≡ lock) }
    ensures run { HasRun seat.own result.1.own seat.number running.guard.ticket (refused_entry running.job.call running.job.line) }
{
    match lock.close(seat) {
        Shut::Quiet(_table, _cells, _log) => unreachable!(),
        Shut::Unjoined(lock, seat, _others) => {
            let mut seat = seat;
            give_back(&lock, rt, &mut seat, running);
            (lock, seat)
        }
        Shut::Left(lock, seat, _ticket) => {
            let mut seat = seat;
            give_back(&lock, rt, &mut seat, running);
            (lock, seat)
        }
    }
}

// The end of a lock.
ghost use Rattle.std.specs.Prelude.{◌≡◌, ◌≤◌, ◌<◌, ◌+◌, [], map, length, Some, IfOk, IfErr, IfSome, IfNone, OnOk};
ghost use Rattle.std.specs.List.{AllByRecursion};
ghost use Rattle.st_grants.specs.Order.{IsLeastTicket};
ghost use Rattle.st_turn.specs.Lists.{Account, AreAmong};
ghost use Rattle.st_lock.specs.Closing.{IsAlone, IsQuiet, lock_counted, numbers_in};
ghost use Rattle.st_lock.specs.Held.{faults_in};
ghost use Rattle.st_lock.specs.Opening.{noted_by};
ghost use Rattle.st_lock.specs.Outcomes.{IfQuiet, IfUnjoined, IfLeft};
ghost use Rattle.st_lock.specs.Seats.{IsHeard, IsLater, lock_at};

use crate::desk::Desk;
use crate::lock::AllOrSome;
use crate::seat::Seat;
use crate::shut::Shut;
use st_book::{Cells, Log};
use st_model::{Board, Cell};

/// What a closed lock leaves.
struct Rest<C: Cell, T: Board> {
    table: T,
    cells: Cells<C>,
    log: Log,
}

impl<C: Cell, T: Board> AllOrSome<C, T> {
    /// The least ticket that isn't released, where every other seat was joined into this one; else how many others there
    /// are. It takes no memory, and waits for nobody.
    fn unreleased(&self, seat: &mut Seat<C, T>) -> Result<Option<u64>, u64>
        requires here { seat.old.turn ≡ self.now }
        ensures alone { OnOk result (IsAlone seat.old) }
        ensures later { OnOk result (IsLater (lock_counted seat.old 0) seat.new) }
        ensures own { OnOk result (seat.new.own ≡ seat.old.own) }
        ensures account { OnOk result (Account noted_by seat.new.seen seat.new.taken_over) }
        ensures mine { OnOk result (AreAmong noted_by (numbers_in seat.new) seat.new.seen) }
        ensures least { IfOk result (λ left. IfSome left (IsLeastTicket (lock_at seat.new).rows)) }
        ensures none { IfOk result (λ left. IfNone left ((lock_at seat.new).rows ≡ [])) }
        ensures others { IfErr result (λ n. (0 < n) × ¬ (IsAlone seat.old)) }
        ensures counted { IfErr result (λ n. (seat.new ≡ lock_counted seat.old n) × (seat.old.counted ≤ n + length (numbers_in seat.old))) }
    {
        let book = match self.turn.take_last(&mut seat.seat) {
            Ok(Desk { book }) => book,
            Err(others) => return Err(others),
        };
        let left = book.unreleased();
        self.turn.put(&mut seat.seat, Desk { book });
        Ok(left)
    }

    /// Ends the lock of the only seat, which saw that no ticket is left.
    fn end(self, seat: Seat<C, T>) -> Rest<C, T>
        requires here { seat.turn ≡ self }
        requires alone { IsAlone seat }
        requires heard { IsHeard seat }
        requires account { Account noted_by seat.seen seat.taken_over }
        requires mine { AreAmong noted_by (numbers_in seat) seat.seen }
        requires released { (lock_at seat).rows ≡ [] }
        ensures quiet { IsQuiet seat result.log.items (map C.state result.cells.items) (record { state = T.stands result.table; slack = T.slack result.table }) (faults_in T.fault_count C.fault_count (Some result.table) result.cells.items) }
        ensures kept { AllByRecursion C.is_kept result.cells.items × T.is_kept result.table }
    {
        let AllOrSome { turn, bell: _ } = self;
        let Seat { seat } = seat;
        let book = match turn.close(seat) {
            Ok(Desk { book }) => book,
            Err(_) => unreachable!(),
        };
        match book.close() {
            Ok((table, cells, log)) => Rest { table, cells, log },
            Err(_) => unreachable!(),
        }
    }

    /// Ends the lock, where every other seat was joined into this one and no ticket is left; else lock and seat come
    /// back. It takes no memory.
    pub fn close(self, seat: Seat<C, T>) -> Shut<C, T>
        requires here { seat.turn ≡ self }
        ensures quiet { IfQuiet result (λ table cells log. IsQuiet seat log.items (map C.state cells.items) (record { state = T.stands table; slack = T.slack table }) (faults_in T.fault_count C.fault_count (Some table) cells.items)) }
        ensures kept { IfQuiet result (λ table cells log. AllByRecursion C.is_kept cells.items × T.is_kept table) }
        ensures unjoined { IfUnjoined result (λ lock back n. (lock ≡ self) × (back ≡ lock_counted seat n) × (0 < n) × ¬ (IsAlone seat) × (seat.counted ≤ n + length (numbers_in seat))) }
        ensures left { IfLeft result (λ lock back ticket. (lock ≡ self) × IsAlone seat × IsLater (lock_counted seat 0) back × (back.own ≡ seat.own) × IsLeastTicket (lock_at back).rows ticket) }
    {
        let mut seat = seat;
        match self.unreleased(&mut seat) {
            Err(others) => Shut::Unjoined(self, seat, others),
            Ok(Some(ticket)) => Shut::Left(self, seat, ticket),
            Ok(None) => {
                let Rest { table, cells, log } = self.end(seat);
                Shut::Quiet(table, cells, log)
            }
        }
    }
}

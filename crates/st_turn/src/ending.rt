// The last seat takes the book without waiting, and ends the turn.
ghost use Rattle.std.specs.Prelude.{◌≡◌, ◌<◌, ◌≤◌, ◌+◌, length, false, IfOk, IfErr, OnOk, OnErr};
ghost use Rattle.st_turn.specs.Lists.{AreAmong};
ghost use Rattle.st_turn.specs.Views.{IsLent, HasAll, numbers_of, with_book, with_others};

use crate::logged::Logged;
use crate::seat::{SeatOf, TurnSeat};
use crate::steps::{count, open_up, take_alone};
use crate::turn::Turn;

impl<B: Logged> Turn<B> {
    /// Takes the book without waiting, where every other seat was joined into this one, directly or through others.
    /// Else it gives the number of other seats that were made and were not joined so. It takes no memory.
    pub fn take_last(&self, seat: &mut TurnSeat<B>) -> Result<B, u64>
        requires here { seat.old.turn ≡ self.now }
        requires out { seat.old.is_in ≡ false }
        ensures all { OnOk result (HasAll (numbers_of seat.old) seat.old.made) }
        ensures book { IfOk result (λ book. IsLent B.by B.events B.fits seat.old book) }
        // Each event is of a number that the seat answers for.
        ensures mine { IfOk result (λ book. AreAmong B.by (numbers_of seat.old) (B.events book)) }
        ensures view { IfOk result (λ book. seat.new ≡ with_book (with_others seat.old 0) (B.events book)) }
        ensures outstanding { IfErr result (λ n. (0 < n) × ¬ (HasAll (numbers_of seat.old) seat.old.made)) }
        // The n seats, and the numbers that this one answers for, are all that were dealt. Nothing else changes.
        ensures same { IfErr result (λ n. seat.new ≡ with_others seat.old n) }
        ensures later { IfErr result (λ n. seat.old.counted ≤ n + length (numbers_of seat.old)) }
    {
        let others = count(&self.table.shared, &mut seat.seat) - seat.claimed;
        if others > 0 {
            return Err(others);
        }
        seat.last = true;
        match take_alone(&self.table.shared, &mut seat.seat) {
            Some(book) => Ok(book),
            None => unreachable!(),
        }
    }

    /// Ends the turn and gives the book, where every other seat was joined into this one, directly or through others.
    /// Else the turn and the seat come back, with the number of other seats that were made and were not joined so.
    pub fn close(self, seat: TurnSeat<B>) -> Result<B, (Turn<B>, TurnSeat<B>, u64)>
        requires here { seat.turn ≡ self }
        requires out { seat.is_in ≡ false }
        ensures all { OnOk result (HasAll (numbers_of seat) seat.made) }
        ensures book { IfOk result (λ book. IsLent B.by B.events B.fits seat book) }
        // Each event is of a number that the seat answers for.
        ensures mine { IfOk result (λ book. AreAmong B.by (numbers_of seat) (B.events book)) }
        ensures outstanding { IfErr result (λ back. (0 < back.2) × ¬ (HasAll (numbers_of seat) seat.made)) }
        // The seats outstanding, and the numbers that this one answers for, are all that were dealt.
        ensures same { IfErr result (λ back. (back.0 ≡ self) × (back.1 ≡ with_others seat back.2)) }
        ensures later { IfErr result (λ back. seat.counted ≤ back.2 + length (numbers_of seat)) }
    {
        let mut seat = seat;
        let left = count(&self.table.shared, &mut seat.seat) - seat.claimed;
        if left > 0 {
            return Err((self, seat, left));
        }
        let Turn { table } = self;
        let SeatOf {
            seat,
            number: _,
            claimed: _,
            last: _,
        } = seat;
        Ok(open_up(table, seat))
    }
}

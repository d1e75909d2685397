ghost use Rattle.std.specs.Prelude.{List, ◌≡◌, ◌++◌, [], ◌∷◌, true, false, None, Some, IfOk, IfErr};
ghost use Rattle.st_turn.specs.Views.{IsLent, GoesOn, first_seat, with_book, after_put};
ghost use Rattle.st_turn.specs.Ruling.{blank_view};
ghost use Rattle.st_turn.specs.Seated.{start_view};

use crate::kinds::TurnRule;
use crate::knowledge::Knowledge;
use crate::logged::Logged;
use crate::seat::{SeatOf, TurnSeat};
use crate::steps::{OwnTable, TableSeat, TurnTable, end_empty, leave_last, leave_turn, take_alone};
use crate::waiting::{draw_ticket, wait_turn, wake};
use atomic_table::Table;
use st_units::NoMemory;
use std::alloc::Global;
use std::marker::Model;
use std::sync::Wait;

/// One book, lent to one seat at a time, in the order in which they ask.
///
/// Contracts see a turn as the name that its seats have in `turn`. Share it by reference, or in an `Arc`.
pub struct Turn<B: Logged> {
    pub(crate) table: Table<Option<B>, Knowledge<B::Event, B::Opening>, (), TurnRule<B>, Global>,
}

impl<B: Logged> Model for Turn<B> {
    ghost use Rattle.std.specs.Prelude.{◌≡◌};
    ghost use Rattle.atomic_table.specs.Seated.{TableId};

    ghost Value = { TableId };

    ghost view = { λ t. t.table.shared.table_id };

    ghost invariant = { λ t. (t.table.shared.table_id.words ≡ 3) × (t.table.shared.table_id.slots ≡ 1) };
}

/// Puts the first book into the empty slot.
fn put_first<B: Logged>(table: &TurnTable<B>, seat: &mut TableSeat<B>, book: B)
    requires words { table.now.table_id.words ≡ 3 }
    requires here { seat.old.table_id ≡ table.now.table_id }
    requires blank { seat.old.me ≡ (blank_view, []) }
    requires empty { B.events book ≡ [] }
    requires fits { B.fits book (B.opens book) }
    ensures here { seat.new.table_id ≡ seat.old.table_id }
    ensures view { seat.new.me ≡ (start_view (B.opens book), []) }
{
    match take_alone(table, seat) {
        None => leave_last(table, seat, book),
        Some(_other) => unreachable!(),
    }
}

/// The memory of a turn that has no book yet.
pub struct Vacant<B: Logged> {
    table: OwnTable<B>,
    seat: TableSeat<B>,
}

impl<B: Logged> Model for Vacant<B> {
    ghost use Rattle.std.specs.Prelude.{◌≡◌, []};
    ghost use Rattle.atomic_table.specs.Seated.{TableId};
    ghost use Rattle.st_turn.specs.Ruling.{blank_view};

    ghost Value = { TableId };

    ghost view = { λ v. v.table.shared.table_id };

    ghost invariant = { λ v. (v.table.shared.table_id.words ≡ 3) × (v.table.shared.table_id.slots ≡ 1) × (v.seat.table_id ≡ v.table.shared.table_id) × (v.seat.me ≡ (blank_view, [])) };
}

impl<B: Logged> Vacant<B> {
    /// Takes the memory of a turn.
    pub fn make(alloc: Global) -> Result<Vacant<B>, NoMemory> {
        match Table::vacant(alloc, &[0, 0, 1], 1, &()) {
            Err(_) => Err(NoMemory),
            Ok((table, seat)) => Ok(Vacant { table, seat }),
        }
    }

    /// The turn that lends this book, whose log is empty, and its first seat. It takes no memory, and isn't refused.
    pub fn fill(self, book: B) -> (Turn<B>, TurnSeat<B>)
        requires empty { B.events book ≡ [] }
        requires fits { B.fits book (B.opens book) }
        ensures first { result.1 ≡ first_seat result.0 (B.opens book) }
    {
        let Vacant { table, mut seat } = self;
        put_first(&table.shared, &mut seat, book);
        (
            Turn { table },
            SeatOf {
                seat,
                number: 0,
                claimed: 1,
                last: false,
            },
        )
    }

    /// Lets the memory go.
    pub fn end(self) {
        let Vacant { table, seat } = self;
        end_empty(table, seat);
    }
}

impl<B: Logged> Turn<B> {
    /// Waits for the seat's turn, and takes the book. It takes no memory.
    pub fn take(&self, rt: &impl Wait, seat: &mut TurnSeat<B>) -> B
        requires here { seat.old.turn ≡ self.now }
        requires out { seat.old.is_in ≡ false }
        ensures book { IsLent B.by B.events B.fits seat.old result }
        ensures view { seat.new ≡ with_book seat.old (B.events result) }
    {
        let ticket = draw_ticket(rt, &self.table.shared, &mut seat.seat);
        seat.last = false;
        wait_turn(rt, &self.table.shared, &mut seat.seat, ticket)
    }

    /// Gives the book back, whose log goes on from the one taken by events of the seat. It takes no memory, and does
    /// not wait.
    pub fn put(&self, seat: &mut TurnSeat<B>, book: B)
        requires here { seat.old.turn ≡ self.now }
        requires in_turn { seat.old.is_in ≡ true }
        requires book { (more : List B.Event) × GoesOn B.by B.events B.fits seat.old book more }
        ensures view { seat.new ≡ after_put seat.old (B.events book) }
        ensures own { (more : List B.Event) → B.events book ≡ seat.old.seen ++ more → seat.new.own ≡ seat.old.own ++ more }
    {
        if seat.last {
            leave_last(&self.table.shared, &mut seat.seat, book);
        } else {
            let served = leave_turn(&self.table.shared, &mut seat.seat, book);
            wake(&self.table.shared, served);
        }
    }
}

// One function for each kind of step, over the table and the seat of it.
ghost use Rattle.std.specs.Prelude.{ℕ, OnOk, OnErr, ◌≡◌, ◌==◌, true, MatchBool, ◌<◌, ◌≤◌, ◌-◌, ◌^◌, ◌⊎◌, [], ◌∷◌, IfSome, IfNone, IfOk, IfErr, None, Some, length};
ghost use mathlib.Core.List.{IsPrefix};
ghost use Rattle.st_turn.specs.declared.knowledge.Place.TheVariants.{Out, Waiting, InTurn, Last};
ghost use Rattle.st_turn.specs.Lists.{IsAmong, told_by, longer};
ghost use Rattle.st_turn.specs.Parts.{held, claimed};
ghost use Rattle.st_turn.specs.Views.{HasAll};
ghost use Rattle.st_turn.specs.Ruling.{log_of, blank_view};
ghost use Rattle.st_turn.specs.Kinds.{Found, after_turn, MayLeave, with_drawn, with_counted, alone_of, both_of};
ghost use Rattle.st_turn.specs.Seated.{IsOpen};

use crate::kinds::{
    Count, DEALT, Draw, Enter, Leave, Number, SERVING, TICKET, TakeLast, Tell, TurnRule, Unite,
};
use crate::knowledge::Knowledge;
use crate::logged::Logged;
use atomic_table::{Seat, Shared, Table};
use std::alloc::Global;

/// A seat of the table.
pub type TableSeat<B> = Seat<Option<B>, Knowledge<<B as Logged>::Event, <B as Logged>::Opening>>;

/// The table as threads see it.
pub type TurnTable<B> = Shared<
    Option<B>,
    Knowledge<<B as Logged>::Event, <B as Logged>::Opening>,
    (),
    TurnRule<B>,
>;

/// The table with its memory.
pub type OwnTable<B> = Table<
    Option<B>,
    Knowledge<<B as Logged>::Event, <B as Logged>::Opening>,
    (),
    TurnRule<B>,
    Global,
>;

/// Draws this ticket, where it is still the next. Gives the next ticket as it was.
pub fn draw<B: Logged>(table: &TurnTable<B>, seat: &mut TableSeat<B>, ticket: u64) -> u64
    requires words { table.now.table_id.words ≡ 3 }
    requires here { seat.old.table_id ≡ table.now.table_id }
    requires out { seat.old.me.0.place ≡ Out }
    requires few { ticket < 2 ^ 64 - 1 }
    ensures here { seat.new.table_id ≡ seat.old.table_id }
    ensures drew { MatchBool (result == ticket) (seat.new.me ≡ (record seat.old.me.0 { place = Waiting result }, seat.old.me.1)) (seat.new.me ≡ seat.old.me) }
{
    table.compare_exchange::<Draw>(seat, TICKET, ticket, ticket + 1)
}

/// Takes the book where this ticket is served. Gives the ticket that is served instead.
pub fn enter<B: Logged>(
    table: &TurnTable<B>,
    seat: &mut TableSeat<B>,
    ticket: u64,
) -> Result<B, u64>
    requires words { table.now.table_id.words ≡ 3 }
    requires here { seat.old.table_id ≡ table.now.table_id }
    requires waiting { seat.old.me.0.place ≡ Waiting ticket }
    requires hands { seat.old.me.1 ≡ [] }
    requires opened { IsOpen seat.old.me.0.opening }
    ensures here { seat.new.table_id ≡ seat.old.table_id }
    ensures book { IfOk result (λ b. Found B.by B.events B.fits seat.old.me.0 (Some b)) }
    ensures view { IfOk result (λ b. seat.new.me ≡ (record seat.old.me.0 { place = InTurn ticket; seen = B.events b }, (0, None) ∷ [])) }
    ensures same { OnErr result (seat.new.me ≡ seat.old.me) }
    ensures other { IfErr result (λ serving. ¬ (serving ≡ ticket)) }
{
    let serving = table.load::<Enter<B>>(seat, SERVING);
    if serving != ticket {
        return Err(serving);
    }
    match table.exchange(seat, 0, None) {
        Some(book) => Ok(book),
        None => unreachable!(),
    }
}

/// Puts the book into the slot that the seat has.
fn bring_home<B: Logged>(table: &TurnTable<B>, seat: &mut TableSeat<B>, book: B)
    requires here { seat.old.table_id ≡ table.now.table_id }
    requires hands { seat.old.me.1 ≡ (0, None) ∷ [] }
    ensures here { seat.new.table_id ≡ seat.old.table_id }
    ensures me { seat.new.me ≡ (seat.old.me.0, (0, Some book) ∷ []) }
{
    match table.exchange(seat, 0, Some(book)) {
        None => {}
        Some(_other) => unreachable!(),
    }
}

/// Puts the book back, and serves the next ticket. Gives the ticket that was served.
pub fn leave_turn<B: Logged>(table: &TurnTable<B>, seat: &mut TableSeat<B>, book: B) -> u64
    requires words { table.now.table_id.words ≡ 3 }
    requires here { seat.old.table_id ≡ table.now.table_id }
    requires turn { (t : ℕ) × (seat.old.me.0.place ≡ InTurn t) }
    requires hands { seat.old.me.1 ≡ (0, None) ∷ [] }
    requires may { MayLeave B.by B.events B.opens B.fits seat.old.me.0 book }
    ensures here { seat.new.table_id ≡ seat.old.table_id }
    ensures view { seat.new.me ≡ (after_turn B.events B.opens seat.old.me.0 book, []) }
{
    bring_home(table, seat, book);
    table.fetch_add::<Leave<B>>(seat, SERVING, 1)
}

/// Puts the book back that was taken without a ticket.
pub fn leave_last<B: Logged>(table: &TurnTable<B>, seat: &mut TableSeat<B>, book: B)
    requires words { table.now.table_id.words ≡ 3 }
    requires here { seat.old.table_id ≡ table.now.table_id }
    requires turn { seat.old.me.0.place ≡ Last }
    requires hands { seat.old.me.1 ≡ (0, None) ∷ [] }
    requires may { MayLeave B.by B.events B.opens B.fits seat.old.me.0 book }
    ensures here { seat.new.table_id ≡ seat.old.table_id }
    ensures view { seat.new.me ≡ (after_turn B.events B.opens seat.old.me.0 book, []) }
{
    bring_home(table, seat, book);
    let _dealt = table.load::<Leave<B>>(seat, DEALT);
}

/// Takes what is in the slot, as the only seat.
pub fn take_alone<B: Logged>(table: &TurnTable<B>, seat: &mut TableSeat<B>) -> Option<B>
    requires words { table.now.table_id.words ≡ 3 }
    requires here { seat.old.table_id ≡ table.now.table_id }
    requires out { seat.old.me.0.place ≡ Out }
    requires alone { seat.old.me.0.holding.alone ≡ true }
    requires hands { seat.old.me.1 ≡ [] }
    ensures here { seat.new.table_id ≡ seat.old.table_id }
    ensures book { Found B.by B.events B.fits seat.old.me.0 result }
    ensures view { seat.new.me ≡ (record seat.old.me.0 { place = Last; seen = log_of B.events result }, (0, None) ∷ []) }
    ensures mine { (y : ℕ) → IsAmong y (held seat.old.me.0.holding) ⊎ (told_by B.by y (log_of B.events result) ≡ []) }
{
    let _dealt = table.load::<TakeLast<B>>(seat, DEALT);
    table.exchange(seat, 0, None)
}

/// Draws this number, where it is still the next. Gives the next number as it was.
pub fn draw_number<B: Logged>(table: &TurnTable<B>, seat: &mut TableSeat<B>, number: u64) -> u64
    requires words { table.now.table_id.words ≡ 3 }
    requires here { seat.old.table_id ≡ table.now.table_id }
    requires out { seat.old.me.0.place ≡ Out }
    requires few { number < 2 ^ 64 - 1 }
    ensures here { seat.new.table_id ≡ seat.old.table_id }
    ensures later { seat.old.me.0.holding.counted ≤ result }
    ensures drew { MatchBool (result == number) (seat.new.me ≡ (with_drawn result seat.old.me.0, seat.old.me.1)) (seat.new.me ≡ (with_counted result seat.old.me.0, seat.old.me.1)) }
{
    table.compare_exchange::<Number>(seat, DEALT, number, number + 1)
}

/// Gives how many numbers were dealt.
pub fn count<B: Logged>(table: &TurnTable<B>, seat: &mut TableSeat<B>) -> u64
    requires words { table.now.table_id.words ≡ 3 }
    requires here { seat.old.table_id ≡ table.now.table_id }
    requires out { seat.old.me.0.place ≡ Out }
    requires drawn { seat.old.me.0.holding.drawn ≡ [] }
    ensures here { seat.new.table_id ≡ seat.old.table_id }
    ensures enough { length (held seat.old.me.0.holding) ≤ result }
    ensures later { seat.old.me.0.holding.counted ≤ result }
    ensures alone { length (held seat.old.me.0.holding) ≡ result → (seat.new.me ≡ (alone_of result seat.old.me.0, seat.old.me.1)) × HasAll (claimed seat.old.me.0.holding) seat.old.me.0.holding.made }
    ensures others { length (held seat.old.me.0.holding) < result → (seat.new.me ≡ (with_counted result seat.old.me.0, seat.old.me.1)) × ¬ (HasAll (claimed seat.old.me.0.holding) seat.old.me.0.holding.made) }
{
    table.load::<Count>(seat, DEALT)
}

/// Takes the other seat in, and keeps the longer of what both have seen.
pub fn unite<B: Logged>(table: &TurnTable<B>, seat: &mut TableSeat<B>, other: TableSeat<B>)
    requires words { table.now.table_id.words ≡ 3 }
    requires here { (seat.old.table_id ≡ table.now.table_id) × (other.table_id ≡ table.now.table_id) }
    requires out { (seat.old.me.0.place ≡ Out) × (other.me.0.place ≡ Out) }
    requires hands { other.me.1 ≡ [] }
    requires opened { IsOpen seat.old.me.0.opening }
    ensures here { seat.new.table_id ≡ seat.old.table_id }
    ensures view { seat.new.me ≡ (record (both_of seat.old.me.0 other.me.0) { seen = longer seat.old.me.0.seen other.me.0.seen; also = [] }, seat.old.me.1) }
    ensures seen { IsPrefix seat.old.me.0.seen (longer seat.old.me.0.seen other.me.0.seen) × IsPrefix other.me.0.seen (longer seat.old.me.0.seen other.me.0.seen) }
    ensures few { length (held (both_of seat.old.me.0 other.me.0).holding) < 2 ^ 64 }
{
    table.join_seat::<Unite>(seat, other);
    let _dealt = table.load::<Tell>(seat, DEALT);
}

/// Ends the table of the only seat, and gives the book.
pub fn open_up<B: Logged>(table: OwnTable<B>, seat: TableSeat<B>) -> B
    requires slots { table.shared.table_id.slots ≡ 1 }
    requires here { seat.table_id ≡ table.shared.table_id }
    requires out { seat.me.0.place ≡ Out }
    requires alone { seat.me.0.holding.alone ≡ true }
    requires opened { IsOpen seat.me.0.opening }
    ensures book { Found B.by B.events B.fits seat.me.0 (Some result) }
    ensures mine { (y : ℕ) → IsAmong y (held seat.me.0.holding) ⊎ (told_by B.by y (B.events result) ≡ []) }
{
    let mut closed = table.close_with(seat);
    let home = closed.take(0);
    closed.free();
    match home {
        Some(book) => book,
        None => unreachable!(),
    }
}

/// Ends the table of the only seat, to which no book came.
pub fn end_empty<B: Logged>(table: OwnTable<B>, seat: TableSeat<B>)
    requires slots { table.shared.table_id.slots ≡ 1 }
    requires here { seat.table_id ≡ table.shared.table_id }
    requires blank { seat.me ≡ (blank_view, []) }
{
    let mut closed = table.close_with(seat);
    let home = closed.take(0);
    closed.free();
    match home {
        None => (),
        Some(_book) => unreachable!(),
    }
}

// Seats are split off and joined.
ghost use Rattle.std.specs.Prelude.{◌≡◌, ◌+◌, ◌-◌, ◌^◌, ◌≤◌, false, IfOk, OnErr, IfSome, IfNone, [], ◌∷◌};
ghost use mathlib.Core.List.{IsPrefix};
ghost use Rattle.st_turn.specs.declared.knowledge.Place.TheVariants.{Out};
ghost use Rattle.st_turn.specs.Views.{after_split, new_seat, after_join};
ghost use Rattle.st_turn.specs.Kinds.{SameBut};

use crate::kinds::Halve;
use crate::logged::Logged;
use crate::seat::{SeatOf, TurnSeat};
use crate::steps::{TableSeat, TurnTable, count, draw_number, unite};
use crate::turn::Turn;
use st_units::NoMemory;

/// Draws the next number, or None where all are dealt. Another round comes only where another seat drew a number.
fn draw_next<B: Logged>(table: &TurnTable<B>, seat: &mut TableSeat<B>) -> Option<u64>
    requires words { table.now.table_id.words ≡ 3 }
    requires here { seat.old.table_id ≡ table.now.table_id }
    requires out { seat.old.me.0.place ≡ Out }
    requires drawn { seat.old.me.0.holding.drawn ≡ [] }
    ensures here { seat.new.table_id ≡ seat.old.table_id }
    ensures fresh { IfSome result (λ n. seat.old.me.0.holding.counted ≤ n) }
    ensures drew { IfSome result (λ n. SameBut seat.old.me seat.new.me (n ∷ []) (n + 1)) }
    ensures full { IfNone result (SameBut seat.old.me seat.new.me [] (2 ^ 64 - 1)) }
{
    let mut next = count(table, seat);
    while next < u64::MAX {
        let found = draw_number(table, seat, next);
        if found == next {
            return Some(next);
        }
        next = found;
    }
    None
}

impl<B: Logged> Turn<B> {
    /// A new seat, which has seen what the one has. Its number is none that the one knows of. It takes no memory: it is
    /// refused only where 2^64 - 1 numbers are dealt.
    pub fn split(&self, seat: &mut TurnSeat<B>) -> Result<TurnSeat<B>, NoMemory>
        requires here { seat.old.turn ≡ self.now }
        requires out { seat.old.is_in ≡ false }
        ensures split { IfOk result (λ new. (seat.new ≡ after_split seat.old new.number) × (new ≡ new_seat seat.old new.number)) }
        // No number that the seat counted: the numbers that are split off one seat rise.
        ensures fresh { IfOk result (λ new. seat.old.counted ≤ new.number) }
        // It is refused where every number is dealt, and nowhere else.
        ensures full { OnErr result (seat.new ≡ record seat.old { counted = 2 ^ 64 - 1 }) }
    {
        match draw_next(&self.table.shared, &mut seat.seat) {
            None => Err(NoMemory),
            Some(number) => Ok(SeatOf {
                seat: self.table.shared.split_seat::<Halve>(&mut seat.seat),
                number,
                claimed: 1,
                last: false,
            }),
        }
    }

    /// Takes another seat in: the one answers for its number, and for those that it took over, and has seen what either
    /// had seen. It takes no memory.
    pub fn join(&self, seat: &mut TurnSeat<B>, other: TurnSeat<B>)
        requires here { (seat.old.turn ≡ self.now) × (other.turn ≡ self.now) }
        requires out { (seat.old.is_in ≡ false) × (other.is_in ≡ false) }
        ensures both { seat.new ≡ after_join seat.old other }
        ensures seen { IsPrefix seat.old.seen seat.new.seen × IsPrefix other.seen seat.new.seen }
    {
        let SeatOf {
            seat: joined,
            number: _,
            claimed,
            last: _,
        } = other;
        unite(&self.table.shared, &mut seat.seat, joined);
        seat.claimed += claimed;
    }
}

// Waiting for a turn. No proof says that a wait ends.
ghost use Rattle.std.specs.Prelude.{◌≡◌, [], ◌∷◌, None, Some};
ghost use Rattle.st_turn.specs.declared.knowledge.Place.TheVariants.{Out, Waiting, InTurn};
ghost use Rattle.st_turn.specs.Kinds.{Found};
ghost use Rattle.st_turn.specs.Seated.{IsOpen};

use crate::kinds::{SERVING, TICKET};
use crate::logged::Logged;
use crate::steps::{TableSeat, TurnTable, draw, enter};
use std::sync::Wait;
use std::{hint, thread};

// A seat looks so often with a short pause; from then on it yields its processor after each look.
const SPINS: u32 = 20;

// So often it looks before it draws a ticket while the book is out. A ticket that is drawn has to be served before each
// later one, and its thread may be off its processor just then; a seat that draws when the book is at home has it at once.
// So few looks keep nobody out for long, and spare most hand-overs to threads that don't run.
const LOOKS_BEFORE: u32 = 400;

// So often it looks with its ticket before it sleeps. Most turns are shorter than a sleep, and looks for about a
// millisecond cost no more than one.
const LOOKS: u32 = 1_000;

/// Draws the next ticket: at once where no other is drawn that wasn't served, else after a while.
pub fn draw_ticket<B: Logged>(rt: &impl Wait, table: &TurnTable<B>, seat: &mut TableSeat<B>) -> u64
    requires words { table.now.table_id.words ≡ 3 }
    requires here { seat.old.table_id ≡ table.now.table_id }
    requires out { seat.old.me.0.place ≡ Out }
    ensures here { seat.new.table_id ≡ seat.old.table_id }
    ensures drew { seat.new.me ≡ (record seat.old.me.0 { place = Waiting result }, seat.old.me.1) }
{
    let mut looks = 0u32;
    for _ in rt.forever() {
        let ticket = table.peek(TICKET);
        if looks < LOOKS_BEFORE && table.peek(SERVING) != ticket {
            let_go_by(looks);
            looks += 1;
        } else if ticket < u64::MAX && draw(table, seat, ticket) == ticket {
            return ticket;
        }
    }
    unreachable!()
}

/// Waits until the ticket is served, and takes the book.
pub fn wait_turn<B: Logged>(
    rt: &impl Wait,
    table: &TurnTable<B>,
    seat: &mut TableSeat<B>,
    ticket: u64,
) -> B
    requires words { table.now.table_id.words ≡ 3 }
    requires here { seat.old.table_id ≡ table.now.table_id }
    requires waiting { seat.old.me.0.place ≡ Waiting ticket }
    requires hands { seat.old.me.1 ≡ [] }
    requires opened { IsOpen seat.old.me.0.opening }
    ensures here { seat.new.table_id ≡ seat.old.table_id }
    ensures book { Found B.by B.events B.fits seat.old.me.0 (Some result) }
    ensures view { seat.new.me ≡ (record seat.old.me.0 { place = InTurn ticket; seen = B.events result }, (0, None) ∷ []) }
{
    let mut looks = 0u32;
    for _ in rt.forever() {
        match enter(table, seat, ticket) {
            Ok(book) => return book,
            Err(serving) => pause(rt, table, looks, serving),
        }
        looks = looks.saturating_add(1);
    }
    unreachable!()
}

/// A moment in which others may go on, the longer one after some looks.
fn let_go_by(looks: u32) {
    if looks < SPINS {
        hint::spin_loop();
    } else {
        thread::yield_now();
    }
}

/// Rests a while, since this ticket was served at the last look: a moment at first, then until another is served.
fn pause<B: Logged>(rt: &impl Wait, table: &TurnTable<B>, looks: u32, serving: u64)
    requires words { table.now.table_id.words ≡ 3 }
{
    if looks < LOOKS {
        let_go_by(looks);
    } else {
        table.park(rt, SERVING, (serving % (1 << 32)) as u32);
    }
}

/// Wakes those who sleep until another ticket than this is served, if a ticket beyond it was drawn at all. A seat that
/// draws one later looks at the ticket served before it sleeps.
pub fn wake<B: Logged>(table: &TurnTable<B>, served: u64)
    requires words { table.now.table_id.words ≡ 3 }
{
    if table.peek(TICKET).wrapping_sub(served) > 1 {
        table.wake_all(SERVING);
    }
}

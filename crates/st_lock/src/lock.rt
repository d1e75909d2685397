ghost use Rattle.std.specs.Prelude.{◌≡◌, ◌≤◌, ◌<◌, ◌^◌, ◌+◌, ◌-◌, min, length, map, option_map, true, false, [], ◌∷◌, ◌++◌, Ok, Err, IfOk, IfErr, IfSome, IsSomeAnd, OnOk, OnErr, Some, None};
ghost use Rattle.std.specs.List.{AllByRecursion};
ghost use mathlib.Core.List.{IsPrefix};
ghost use Rattle.st_model.specs.Parts.{pool_at, started, table_of, shown_table};
ghost use Rattle.st_model.specs.Shown.{pool_info};
ghost use Rattle.st_history.specs.Failures.{failures_of};
ghost use Rattle.st_book.specs.Noted.{grant_with};
ghost use Rattle.st_book.specs.Stands.{ComesBack, PartStands, PartShows};
ghost use Rattle.st_model.specs.Pieces.{ShowPools, every};
ghost use Rattle.st_wants.specs.Wants.{takes_table};
ghost use Rattle.st_lock.specs.Outcomes.{IfGranted, IfNotYet};
ghost use Rattle.st_lock.specs.Held.{Rose, faults_in};
ghost use Rattle.st_lock.specs.Opening.{IsOpening, state_of};
ghost use Rattle.st_wants.specs.Lock.{IsLeastBlocker, new_row};
ghost use Rattle.st_lock.specs.Seats.{first_lock_seat, lock_split, lock_new, lock_join, EndsWith, IsHeard, IsLater, lock_at, own_row, plain, state_at};

use crate::bell::Bell;
use crate::desk::Desk;
use crate::guard::{Guard, Ticket, Tried};
use crate::seat::Seat;
use st_book::{Book, Event, Part, Peek};
use st_model::{Board, Cell, EntryList};
use st_turn::{Turn, Vacant};
use st_units::NoMemory;
use st_wants::Want;
use std::alloc::Global;
use std::marker::Model;
use std::sync::Wait;

/// The lock on some pools or on all.
pub struct AllOrSome<C: Cell, T: Board> {
    pub(crate) turn: Turn<Desk<C, T>>,
    pub(crate) bell: Bell,
}

impl<C: Cell, T: Board> Model for AllOrSome<C, T> {
    ghost use Rattle.atomic_table.specs.Seated.{TableId};

    ghost Value = { TableId };

    ghost view = { λ l. l.turn };
}

fn ticket_of(arrived: Result<u64, (Want, NoMemory)>) -> Result<Ticket, (Want, NoMemory)>
    ensures ok { IfOk result (λ t. arrived ≡ Ok t.number) }
    ensures err { IfErr result (λ e. arrived ≡ Err e) }
{
    match arrived {
        Ok(number) => Ok(Ticket { number }),
        Err(refused) => Err(refused),
    }
}

fn tried<C: Cell, T: Board>(ticket: Ticket, granted: Result<Part<C, T>, u64>) -> Tried<C, T>
    ensures ok { IfGranted result (λ g. (g.ticket ≡ ticket.number) × (granted ≡ Ok g.part)) }
    ensures err { IfNotYet result (λ t u. (t ≡ ticket) × (granted ≡ Err u)) }
{
    let Ticket { number } = ticket;
    match granted {
        Ok(part) => Tried::Granted(Guard {
            ticket: number,
            part,
        }),
        Err(blocker) => Tried::NotYet(Ticket { number }, blocker),
    }
}

impl<C: Cell, T: Board> AllOrSome<C, T> {
    /// A lock over this table, with no started pool, and its first seat. A refusal hands the table back as it was.
    pub fn make(alloc: Global, table: T) -> Result<(AllOrSome<C, T>, Seat<C, T>), (T, NoMemory)>
        requires spare { T.has_spare table ≡ true }
        requires faults { T.fault_count table ≡ 0 }
        requires kept { T.is_kept table }
        requires opens { IsOpening (T.stands table) }
        ensures first { IfOk result (λ made. made.1 ≡ first_lock_seat made.0 (record { state = state_of (T.stands table); base = T.slack table })) }
        ensures back { IfErr result (λ e. e.0 ≡ table) }
    {
        let vacant = match Vacant::make(alloc) {
            Ok(vacant) => vacant,
            Err(_) => return Err((table, NoMemory)),
        };
        match Book::make(alloc, table) {
            Ok(book) => {
                let (turn, seat) = vacant.fill(Desk { book });
                let bell = Bell::new();
                Ok((AllOrSome { turn, bell }, Seat { seat }))
            }
            Err(refused) => {
                vacant.end();
                Err(refused)
            }
        }
    }

    /// A ticket for the want, whose arrival is entered.
    pub fn arrive(
        &self,
        rt: &impl Wait,
        alloc: Global,
        seat: &mut Seat<C, T>,
        want: Want,
    ) -> Result<Ticket, (Want, NoMemory)>
        requires here { seat.old.turn ≡ self.now }
        ensures later { IsLater seat.old seat.new }
        ensures own { IfOk result (λ t. seat.new.own ≡ seat.old.own ++ plain (Event.Arrive seat.old.number t.number want) ∷ []) }
        ensures row { IfOk result (λ t. own_row t.number seat.new ≡ Some (new_row t.number seat.old.number want)) }
        ensures back { IfErr result (λ e. e.0 ≡ want) }
        ensures same { OnErr result (seat.new.own ≡ seat.old.own) }
    {
        let Desk { book } = self.turn.take(rt, &mut seat.seat);
        let mut book = book;
        let arrived = book.arrive(alloc, seat.seat.number(), want);
        self.turn.put(&mut seat.seat, Desk { book });
        ticket_of(arrived)
    }

    /// Grants the ticket where nothing keeps it back, and gives its part.
    pub fn try_grant(&self, rt: &impl Wait, seat: &mut Seat<C, T>, ticket: Ticket) -> Tried<C, T>
        requires here { seat.old.turn ≡ self.now }
        requires waits { IsSomeAnd (own_row ticket.number seat.old) (λ r. r.live ≡ false) }
        ensures later { IsLater seat.old seat.new }
        ensures own { IfGranted result (λ g. (g.ticket ≡ ticket.number)
            × (seat.new.own ≡ seat.old.own ++ grant_with seat.old.number g.ticket (min (faults_in T.fault_count C.fault_count g.part.table g.part.cells.items) (2 ^ 64 - 1)) ∷ [])) }
        ensures row { IfGranted result (λ g. IfSome (own_row ticket.number seat.old) (λ r. own_row g.ticket seat.new ≡ Some (record r { live = true }))) }
        ensures part { IfGranted result (λ g. IfSome (own_row ticket.number seat.old) (λ r.
            PartStands r.want (state_at seat.new) (map C.state g.part.cells.items) (option_map (λ t. record { state = T.stands t; slack = T.slack t }) g.part.table))) }
        ensures shown { IfGranted result (λ g. g.part.short ≡ false → IfSome (own_row ticket.number seat.old) (λ r.
            PartShows r.want (state_at seat.new) (map C.shows g.part.infos.items) (option_map T.shows g.part.table_info))) }
        ensures short { IfGranted result (λ g. g.part.short ≡ true → (g.part.infos.items ≡ []) × (g.part.table_info ≡ None)) }
        ensures due { IfGranted result (λ g. g.part.short ≡ true → IfSome (own_row ticket.number seat.old) (λ r. takes_table r.want ≡ false)) }
        ensures slack { IfGranted result (λ g. IfSome g.part.table (λ t. seat.new.opening.base ≤ T.slack t)) }
        ensures whole { IfGranted result (λ g. length seat.new.seen < 2 ^ 62 → min (faults_in T.fault_count C.fault_count g.part.table g.part.cells.items) (2 ^ 64 - 1) ≡ faults_in T.fault_count C.fault_count g.part.table g.part.cells.items) }
        ensures few { IfGranted result (λ g. length seat.new.seen < 2 ^ 62 → faults_in T.fault_count C.fault_count g.part.table g.part.cells.items < 2 ^ 63) }
        ensures kept { IfGranted result (λ g. AllByRecursion C.is_kept g.part.cells.items × IfSome g.part.table T.is_kept) }
        ensures places { IfGranted result (λ g. 16 ≤ length g.part.cells.items + g.part.cells.room) }
        ensures blocked { IfNotYet result (λ t u. (t ≡ ticket) × IsLeastBlocker (lock_at seat.new) ticket.number u) }
        ensures same { IfNotYet result (λ t u. seat.new.own ≡ seat.old.own) }
    {
        let Desk { book } = self.turn.take(rt, &mut seat.seat);
        let mut book = book;
        let granted = book.grant(ticket.number);
        self.turn.put(&mut seat.seat, Desk { book });
        tried(ticket, granted)
    }

    /// Waits until the ticket is granted: tries, and tries again after releases.
    pub fn acquire(&self, rt: &impl Wait, seat: &mut Seat<C, T>, ticket: Ticket) -> Guard<C, T>
        requires here { seat.old.turn ≡ self.now }
        requires waits { IsSomeAnd (own_row ticket.number seat.old) (λ r. r.live ≡ false) }
        ensures later { IsLater seat.old seat.new }
        ensures own { (result.ticket ≡ ticket.number)
            × (seat.new.own ≡ seat.old.own ++ grant_with seat.old.number result.ticket (min (faults_in T.fault_count C.fault_count result.part.table result.part.cells.items) (2 ^ 64 - 1)) ∷ []) }
        ensures part { IfSome (own_row ticket.number seat.old) (λ r.
            PartStands r.want (state_at seat.new) (map C.state result.part.cells.items) (option_map (λ t. record { state = T.stands t; slack = T.slack t }) result.part.table)) }
        ensures row { IfSome (own_row ticket.number seat.old) (λ r. own_row result.ticket seat.new ≡ Some (record r { live = true })) }
        ensures shown { result.part.short ≡ false → IfSome (own_row ticket.number seat.old) (λ r.
            PartShows r.want (state_at seat.new) (map C.shows result.part.infos.items) (option_map T.shows result.part.table_info)) }
        ensures short { result.part.short ≡ true → (result.part.infos.items ≡ []) × (result.part.table_info ≡ None) }
        ensures due { result.part.short ≡ true → IfSome (own_row ticket.number seat.old) (λ r. takes_table r.want ≡ false) }
        ensures slack { IfSome result.part.table (λ t. seat.new.opening.base ≤ T.slack t) }
        ensures whole { length seat.new.seen < 2 ^ 62 → min (faults_in T.fault_count C.fault_count result.part.table result.part.cells.items) (2 ^ 64 - 1) ≡ faults_in T.fault_count C.fault_count result.part.table result.part.cells.items }
        ensures few { length seat.new.seen < 2 ^ 62 → faults_in T.fault_count C.fault_count result.part.table result.part.cells.items < 2 ^ 63 }
        ensures kept { AllByRecursion C.is_kept result.part.cells.items × IfSome result.part.table T.is_kept }
        ensures places { 16 ≤ length result.part.cells.items + result.part.cells.room }
    {
        let mut ticket = ticket;
        for _ in rt.forever() {
            let seen = self.bell.rings();
            match self.try_grant(rt, seat, ticket) {
                Tried::Granted(guard) => return guard,
                Tried::NotYet(same, blocker) => {
                    // As many tickets stand before this one at most.
                    let before = same.number.saturating_sub(blocker);
                    ticket = same;
                    self.bell.wait(rt, seen, before);
                }
            }
        }
        unreachable!()
    }

    /// Takes a guard's part back, and enters the release with the entries of what ran on it.
    pub fn release(
        &self,
        rt: &impl Wait,
        seat: &mut Seat<C, T>,
        guard: Guard<C, T>,
        entries: EntryList,
    )
        requires here { seat.old.turn ≡ self.now }
        requires live { IsSomeAnd (own_row guard.ticket seat.old) (λ r. r.live ≡ true) }
        requires heard { IsHeard seat.old }
        requires back { IfSome (own_row guard.ticket seat.old) (λ r. ComesBack r.want (state_at seat.old) seat.old.opening.base entries.items
            (map C.state guard.part.cells.items) (option_map (λ t. record { state = T.stands t; slack = T.slack t }) guard.part.table)) }
        requires spares { AllByRecursion (λ c. C.has_spare c ≡ false → option_map pool_info (pool_at (C.named c) (started (state_at seat.old))) ≡ Some (pool_info (C.state c))) guard.part.cells.items }
        requires spare { IfSome guard.part.table (λ t. T.has_spare t ≡ false → shown_table (table_of (state_at seat.old)) ≡ shown_table (T.stands t)) }
        requires rose { Rose seat.old guard.ticket (faults_in T.fault_count C.fault_count guard.part.table guard.part.cells.items) (failures_of entries.items) }
        requires kept { AllByRecursion C.is_kept guard.part.cells.items × IfSome guard.part.table T.is_kept }
        ensures later { IsLater seat.old seat.new }
        ensures own { seat.new.own ≡ seat.old.own ++ plain (Event.Release seat.old.number guard.ticket entries) ∷ [] }
        ensures last { EndsWith (plain (Event.Release seat.old.number guard.ticket entries)) seat.new }
    {
        let Guard { ticket, part } = guard;
        let Desk { book } = self.turn.take(rt, &mut seat.seat);
        let mut book = book;
        book.release(ticket, part, entries);
        self.turn.put(&mut seat.seat, Desk { book });
        self.bell.ring();
    }

    /// A new seat, which has seen what the one has. It takes no memory.
    pub fn split(&self, seat: &mut Seat<C, T>) -> Result<Seat<C, T>, NoMemory>
        requires here { seat.old.turn ≡ self.now }
        ensures split { IfOk result (λ new. (seat.new ≡ lock_split seat.old new.number) × (new ≡ lock_new seat.old new.number)) }
        ensures fresh { IfOk result (λ new. seat.old.counted ≤ new.number) }
        ensures full { OnErr result (seat.new ≡ record seat.old { counted = 2 ^ 64 - 1 }) }
    {
        match self.turn.split(&mut seat.seat) {
            Ok(seat) => Ok(Seat { seat }),
            Err(_) => Err(NoMemory),
        }
    }

    /// Takes another seat in.
    pub fn join(&self, seat: &mut Seat<C, T>, other: Seat<C, T>)
        requires here { (seat.old.turn ≡ self.now) × (other.turn ≡ self.now) }
        ensures both { seat.new ≡ lock_join seat.old other }
        ensures seen { IsPrefix seat.old.seen seat.new.seen × IsPrefix other.seen seat.new.seen }
    {
        let Seat { seat: joined } = other;
        self.turn.join(&mut seat.seat, joined);
    }

    /// What is shown of the table and of each started pool, after the log as far as the seat has then seen it.
    pub fn peek(
        &self,
        rt: &impl Wait,
        alloc: Global,
        seat: &mut Seat<C, T>,
    ) -> Result<Peek<C, T>, NoMemory>
        requires here { seat.old.turn ≡ self.now }
        ensures later { IsLater seat.old seat.new }
        ensures own { seat.new.own ≡ seat.old.own }
        ensures table { IfOk result (λ p. T.shows p.table_info ≡ shown_table (table_of (state_at seat.new))) }
        ensures infos { IfOk result (λ p. ShowPools every (state_at seat.new) (map C.shows p.infos.items)) }
    {
        let Desk { book } = self.turn.take(rt, &mut seat.seat);
        let shown = book.peek(alloc);
        self.turn.put(&mut seat.seat, Desk { book });
        shown
    }
}

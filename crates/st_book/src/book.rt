ghost use Rattle.std.specs.Prelude.{ℕ, ◌≡◌, ◌+◌, ◌-◌, ◌*◌, ◌≤◌, ◌<◌, ◌^◌, ◌∷◌, ◌++◌, [], min, filter, map, not, length, nat_le, vec_len, vec_capacity, option_map, is_some, Some, None, true, false, IfOk, IfErr, IfSome, IfNone, OnOk, OnErr, IsSome};
ghost use Rattle.std.specs.List.{AllByRecursion, sum_by};
ghost use Rattle.st_wants.specs.Lock.{start, arrived, granted, released, row_at, IsWaiting, IsLive, IsLeastBlocker};
ghost use Rattle.st_grants.specs.Order.{IsLeastTicket};
ghost use Rattle.st_model.specs.declared.state.EngineState.{EngineState};
ghost use Rattle.st_model.specs.Parts.{started, table_of, shown_table};
ghost use Rattle.st_model.specs.Shown.{pool_info};
ghost use Rattle.st_history.specs.Failures.{failures, failures_of};
ghost use Rattle.st_history.specs.History.{History, replay};
ghost use Rattle.st_wants.specs.Wants.{takes_table};
ghost use Rattle.st_model.specs.Pieces.{AreNamedApart, info_at};
ghost use Rattle.st_book.specs.Effects.{all_renewed};
ghost use Rattle.st_book.specs.Stands.{Stands, PartStands, PartShows, ComesBack};
ghost use Rattle.st_book.specs.View.{is_lent_to, lent_at, or_zero};
ghost use Rattle.st_wants.specs.declared.want.Want.TheVariants as wants;
ghost use Rattle.st_wants.specs.declared.want.Mode.TheVariants as modes;

use crate::back::{bring_all, bring_some, renew_table};
use crate::home::{take_cells, take_table};
use crate::lent::{Lent, faults_of, forget};
use crate::lists::{Lists, MOST_POOLS};
use crate::noted::{Notes, no_notes, note};
use crate::part::{Cells, InfoList, Part, Peek};
use crate::ready::{Rooms, let_go, make_room, make_rooms};
use crate::showing::{Showing, copy_all, show_part};
use st_grants::Grants;
use st_history::{Event, Log};
use st_model::{Board, Cell, EntryList};
use st_units::{NoMemory, RoomyList, Shared};
use st_wants::{Mode, Want};
use std::alloc::Global;
use std::marker::Model;
use std::mem;
use std::snapshot::Snapshot;

/// The tickets, their log, and what is at home. Cells and the table go out with a grant and come
/// back with a release.
pub struct Book<C: Cell, T: Board> {
    grants: Grants,
    log: Log,
    cells: Cells<C>,
    /// Of each started pool, at home or not.
    infos: InfoList<C::Info>,
    /// Empty; here a release of all makes the next infos.
    fresh: InfoList<C::Info>,
    table: Option<T>,
    table_info: Shared<T::Info>,
    /// For each ticket that waits, the lists of its part.
    spares: RoomyList<Lists<C>>,
    lent: Vec<Lent>,
    /// The number of each grant. It takes no memory.
    notes: Snapshot<Notes>,
}

impl<C: Cell, T: Board> Model for Book<C, T> {
    ghost use Rattle.std.specs.Prelude.{◌≡◌, ◌+◌, ◌-◌, ◌≤◌, map, length, option_map, is_some, IfSome, vec_len, vec_capacity};
    ghost use Rattle.std.specs.List.{AllByRecursion, sum_by};
    ghost use Rattle.st_book.specs.Noted.{numbers};
    ghost use Rattle.st_book.specs.Rooms.{HasRoom};
    ghost use Rattle.st_book.specs.View.{BookView, or_zero};

    ghost Value = { BookView };

    ghost view = { λ b. record {
      lock = b.grants;
      log = b.log.items;
      cells = map C.state b.cells.items;
      infos = map C.shows b.infos.items;
      table = option_map (λ t. record { state = T.stands t; slack = T.slack t }) b.table;
      table_info = T.shows b.table_info;
      faults = or_zero (option_map T.fault_count b.table) + sum_by C.fault_count b.cells.items;
      lent = b.lent.items;
      notes = numbers b.notes.value;
    } };

    ghost invariant = { λ b.
        HasRoom b.grants b.log.room (length b.spares.items) (vec_capacity b.lent - vec_len b.lent) (length b.cells.items + b.cells.room) (length b.infos.items + b.infos.room) (length b.infos.items) b.fresh.room (is_some b.table)
        × (length b.fresh.items ≡ 0) × AllByRecursion C.is_kept b.cells.items × IfSome b.table T.is_kept × (length b.cells.items ≤ 16) };
}

impl<C: Cell, T: Board> Book<C, T> {
    /// A book without started pools, with this table, which needs a spare, no faults, and devices
    /// that keep what it stands for. A refusal hands the table back.
    pub fn make(alloc: Global, table: T) -> Result<Book<C, T>, (T, NoMemory)>
        requires spare { T.has_spare table ≡ true }
        requires faults { T.fault_count table ≡ 0 }
        requires kept { T.is_kept table }
        ensures back { IfErr result (λ e. e.0 ≡ table) }
        ensures lock { IfOk result (λ b. b.lock ≡ start) }
        ensures log { IfOk result (λ b. b.log ≡ []) }
        ensures cells { IfOk result (λ b. b.cells ≡ []) }
        ensures table { IfOk result (λ b. b.table ≡ Some (record { state = T.stands table; slack = T.slack table })) }
        ensures stands { IfOk result (λ b. (s : EngineState) → table_of s ≡ T.stands table → started s ≡ [] → Stands s (T.slack table) b) }
    {
        let Rooms {
            cells,
            infos,
            fresh,
            grants,
        } = match make_rooms(alloc) {
            Ok(rooms) => rooms,
            Err(refused) => return Err((table, refused)),
        };
        let mut table = table;
        let Some(table_info) = table.info() else {
            unreachable!()
        };
        Ok(Book {
            grants,
            log: Log::make(alloc),
            cells,
            infos,
            fresh,
            table: Some(table),
            table_info,
            spares: RoomyList::make(alloc),
            lent: Vec::new(alloc),
            notes: no_notes(),
        })
    }

    /// A new ticket for the want, whose arrival is entered. It takes the memory of the ticket's
    /// later events and of its part; refused for want of memory alone, with the want handed back.
    pub fn arrive(&mut self, alloc: Global, seat: u64, want: Want) -> Result<u64, (Want, NoMemory)>
        ensures ticket { IfOk result (λ t. t ≡ self.old.lock.next) }
        ensures ok { IfOk result (λ t. self.new ≡ record self.old { lock = arrived seat want self.old.lock; log = self.old.log ++ Event.Arrive seat t want ∷ [] }) }
        ensures back { IfErr result (λ e. e.0 ≡ want) }
        ensures err { OnErr result (self.new ≡ self.old) }
        ensures stands { (s : EngineState) (base : ℕ) → Stands s base self.old → Stands s base self.new }
    {
        if self.grants.arrivals() == u64::MAX {
            return Err((want, NoMemory));
        }
        let Ok(copy) = want.copy() else {
            return Err((want, NoMemory));
        };
        let tickets = self.grants.outstanding();
        if let Err(refused) = make_room(
            alloc,
            &mut self.log,
            &mut self.spares,
            &mut self.lent,
            tickets,
        ) {
            return Err((want, refused));
        }
        match self.grants.arrive(seat, copy) {
            Ok(ticket) => {
                self.log.put(Event::Arrive(seat, ticket, want));
                Ok(ticket)
            }
            Err((_, refused)) => {
                self.spares.take_at(self.spares.len() - 1).finish();
                Err((want, refused))
            }
        }
    }

    /// Grants a ticket that waits, and gives its part, or else the least ticket that keeps it back,
    /// with nothing changed. It takes no memory but for copies of infos; where one is refused, the
    /// part is short.
    pub fn grant(&mut self, ticket: u64) -> Result<Part<C, T>, u64>
        requires { IsWaiting self.old.lock ticket }
        ensures blocked { IfErr result (IsLeastBlocker self.old.lock ticket) }
        ensures err { OnErr result (self.new ≡ self.old) }
        ensures lock { OnOk result (self.new.lock ≡ granted ticket self.old.lock) }
        ensures log { OnOk result (IfSome (row_at ticket self.old.lock.rows) (λ r. self.new.log ≡ self.old.log ++ Event.Grant r.seat ticket ∷ [])) }
        ensures stands { (s : EngineState) (base : ℕ) → Stands s base self.old → Stands s base self.new }
        ensures part { IfOk result (λ p. (s : EngineState) (base : ℕ) → Stands s base self.old → IfSome (row_at ticket self.old.lock.rows) (λ r.
            PartStands r.want (replay s self.old.log) (map C.state p.cells.items) (option_map (λ t. record { state = T.stands t; slack = T.slack t }) p.table))) }
        ensures shown { IfOk result (λ p. p.short ≡ false → (s : EngineState) (base : ℕ) → Stands s base self.old → IfSome (row_at ticket self.old.lock.rows) (λ r.
            PartShows r.want (replay s self.old.log) (map C.shows p.infos.items) (option_map T.shows p.table_info))) }
        ensures short { IfOk result (λ p. p.short ≡ true → (p.infos.items ≡ []) × (p.table_info ≡ None)) }
        ensures due { IfOk result (λ p. p.short ≡ true → IfSome (row_at ticket self.old.lock.rows) (λ r. takes_table r.want ≡ false)) }
        ensures slack { IfOk result (λ p. (s : EngineState) (base : ℕ) → Stands s base self.old → IfSome p.table (λ t. base ≤ T.slack t)) }
        ensures lent { IfOk result (λ p. (s : EngineState) (base : ℕ) → Stands s base self.old → length self.old.log < 2 ^ 62
            → lent_at ticket self.new.lent ≡ or_zero (option_map T.fault_count p.table) + sum_by C.fault_count p.cells.items) }
        ensures notes { IfOk result (λ p. self.new.notes ≡ self.old.notes ++ min (or_zero (option_map T.fault_count p.table) + sum_by C.fault_count p.cells.items) (2 ^ 64 - 1) ∷ []) }
        ensures kept { IfOk result (λ p. AllByRecursion C.is_kept p.cells.items × IfSome p.table T.is_kept) }
        ensures places { IfOk result (λ p. 16 ≤ length p.cells.items + p.cells.room) }
    {
        self.grants.can_grant(ticket)?;
        let Lists { cells, infos } = self.spares.take_at(self.spares.len() - 1);
        let seat = self.grants.seat(ticket);
        let want = self.grants.want(ticket);
        let shown = show_part::<C, T>(want, &self.table_info, self.infos.items(), infos);
        let cells = take_cells(&mut self.cells, want, cells);
        let table = take_table(&mut self.table, want);
        let faults = faults_of(&table, cells.items());
        match self.lent.push(Lent { ticket, faults }) {
            Ok(()) => {}
            Err(_) => unreachable!(),
        }
        note(&mut self.notes, faults);
        self.grants.grant(ticket);
        self.log.put(Event::Grant(seat, ticket));
        let Showing {
            table_info,
            infos,
            short,
        } = shown;
        Ok(Part {
            table,
            table_info,
            cells,
            infos,
            short,
        })
    }

    /// Whether there are places for the cells of a part that comes back, beside those at home. A part that stands for
    /// the state after its entries always has them.
    pub fn has_places(&self, part: &Part<C, T>) -> bool
        ensures { result ≡ nat_le (length self.now.cells + length part.now.cells.items) 16 }
    {
        part.cells.len() <= MOST_POOLS - self.cells.len()
    }

    /// Takes the part of a live ticket back, and enters its release. It takes no memory. The
    /// spares of what comes back are taken over.
    pub fn release(&mut self, ticket: u64, part: Part<C, T>, entries: EntryList)
        requires live { IsLive self.old.lock ticket }
        requires fitting { IfSome (row_at ticket self.old.lock.rows) (λ r. is_some part.table ≡ takes_table r.want) }
        requires few { length self.old.cells + length part.cells.items ≤ 16 }
        requires kept { AllByRecursion C.is_kept part.cells.items × IfSome part.table T.is_kept }
        ensures lock { self.new.lock ≡ released ticket self.old.lock }
        ensures log { IfSome (row_at ticket self.old.lock.rows) (λ r. self.new.log ≡ self.old.log ++ Event.Release r.seat ticket entries ∷ []) }
        ensures notes { self.new.notes ≡ self.old.notes }
        ensures stands { (s : EngineState) (base : ℕ) → Stands s base self.old
            → IfSome (row_at ticket self.old.lock.rows) (λ r. ComesBack r.want (replay s self.old.log) base entries.items (map C.state part.cells.items) (option_map (λ t. record { state = T.stands t; slack = T.slack t }) part.table))
            → AllByRecursion (λ c. C.has_spare c ≡ false → info_at (C.named c) self.old.infos ≡ Some (pool_info (C.state c))) part.cells.items
            → IfSome part.table (λ t. T.has_spare t ≡ false → self.old.table_info ≡ shown_table (T.stands t))
            → (length self.old.log < 2 ^ 62 → or_zero (option_map T.fault_count part.table) + sum_by C.fault_count part.cells.items ≡ lent_at ticket self.old.lent + failures_of entries.items)
            → Stands s base self.new }
    {
        let Part {
            table,
            table_info: _,
            cells,
            infos: _,
            short: _,
        } = part;
        match table {
            Some(table) => self.release_all(ticket, table, cells, entries),
            None => self.release_one(ticket, cells, entries),
        }
    }

    /// A release that brings no table back.
    fn release_one(&mut self, ticket: u64, part: Cells<C>, entries: EntryList)
        requires live { IsLive self.old.lock ticket }
        requires no_table { IfSome (row_at ticket self.old.lock.rows) (λ r. takes_table r.want ≡ false) }
        requires few { length self.old.cells + length part.items ≤ 16 }
        requires kept { AllByRecursion C.is_kept part.items }
        ensures lock { self.new.lock ≡ released ticket self.old.lock }
        ensures log { IfSome (row_at ticket self.old.lock.rows) (λ r. self.new.log ≡ self.old.log ++ Event.Release r.seat ticket entries ∷ []) }
        ensures cells { self.new.cells ≡ self.old.cells ++ map C.state part.items }
        ensures infos { AllByRecursion (λ c. C.has_spare c ≡ false → info_at (C.named c) self.old.infos ≡ Some (pool_info (C.state c))) part.items
            → AreNamedApart (map C.state part.items) → self.new.infos ≡ all_renewed (map pool_info (map C.state part.items)) self.old.infos }
        ensures table { self.new.table ≡ self.old.table }
        ensures table_info { self.new.table_info ≡ self.old.table_info }
        ensures faults { self.new.faults ≡ self.old.faults + sum_by C.fault_count part.items }
        ensures lent { self.new.lent ≡ filter (λ x. not (is_lent_to ticket x)) self.old.lent }
        ensures notes { self.new.notes ≡ self.old.notes }
    {
        let seat = self.grants.seat(ticket);
        bring_some(&mut self.cells, &mut self.infos, part);
        forget(&mut self.lent, ticket);
        self.grants.release(ticket);
        self.log.put(Event::Release(seat, ticket, entries));
    }

    /// The release of a ticket that had the table, and all cells.
    fn release_all(&mut self, ticket: u64, table: T, part: Cells<C>, entries: EntryList)
        requires live { IsLive self.old.lock ticket }
        requires takes { IfSome (row_at ticket self.old.lock.rows) (λ r. takes_table r.want ≡ true) }
        requires few { length self.old.cells + length part.items ≤ 16 }
        requires kept { AllByRecursion C.is_kept part.items }
        requires table_kept { T.is_kept table }
        ensures lock { self.new.lock ≡ released ticket self.old.lock }
        ensures log { IfSome (row_at ticket self.old.lock.rows) (λ r. self.new.log ≡ self.old.log ++ Event.Release r.seat ticket entries ∷ []) }
        ensures cells { self.new.cells ≡ self.old.cells ++ map C.state part.items }
        ensures infos { AllByRecursion (λ c. C.has_spare c ≡ false → info_at (C.named c) self.old.infos ≡ Some (pool_info (C.state c))) part.items
            → AreNamedApart (map C.state part.items) → self.new.infos ≡ map pool_info (map C.state part.items) }
        ensures was_out { self.old.table ≡ None }
        ensures table { self.new.table ≡ Some (record { state = T.stands table; slack = T.slack table }) }
        ensures table_info { (T.has_spare table ≡ false → self.old.table_info ≡ shown_table (T.stands table)) → self.new.table_info ≡ shown_table (T.stands table) }
        ensures faults { self.new.faults ≡ T.fault_count table + (self.old.faults + sum_by C.fault_count part.items) }
        ensures lent { self.new.lent ≡ filter (λ x. not (is_lent_to ticket x)) self.old.lent }
        ensures notes { self.new.notes ≡ self.old.notes }
    {
        let mut table = table;
        renew_table(&mut self.table_info, &mut table);
        match mem::replace(&mut self.table, Some(table)) {
            None => {}
            Some(_) => unreachable!(),
        }
        let seat = self.grants.seat(ticket);
        bring_all(&mut self.cells, &mut self.infos, &mut self.fresh, part);
        forget(&mut self.lent, ticket);
        self.grants.release(ticket);
        self.log.put(Event::Release(seat, ticket, entries));
    }

    /// What is shown now of the table and of each started pool.
    pub fn peek(&self, alloc: Global) -> Result<Peek<C, T>, NoMemory>
        ensures table { IfOk result (λ p. T.shows p.table_info ≡ self.now.table_info) }
        ensures infos { IfOk result (λ p. map C.shows p.infos.items ≡ self.now.infos) }
    {
        let table_info = self.table_info.copy()?;
        let mut infos = InfoList::with_room(alloc, self.infos.len())?;
        if copy_all(self.infos.items(), &mut infos) {
            Ok(Peek { table_info, infos })
        } else {
            Err(NoMemory)
        }
    }

    /// The events so far.
    pub fn log(&self) -> &Log
        ensures { result.now.items ≡ self.now.log }
    {
        &self.log
    }

    /// The least ticket that isn't released, None exactly where there is none.
    pub fn unreleased(&self) -> Option<u64>
        ensures none { IfNone result (self.now.lock.rows ≡ []) }
        ensures some { IfSome result (IsLeastTicket self.now.lock.rows) }
    {
        self.grants.unreleased()
    }

    /// Ends the book, and gives out what it holds; or gives it back with the least ticket that
    /// isn't released, exactly where there is one.
    pub fn close(self) -> Result<(T, Cells<C>, Log), (Book<C, T>, u64)>
        ensures left { IfErr result (λ e. (e.0 ≡ self) × IsLeastTicket self.lock.rows e.1) }
        ensures quiet { OnOk result (self.lock.rows ≡ []) }
        ensures log { IfOk result (λ q. q.2.items ≡ self.log) }
        ensures cells { IfOk result (λ q. map C.state q.1.items ≡ self.cells) }
        ensures table { IfOk result (λ q. self.table ≡ Some (record { state = T.stands q.0; slack = T.slack q.0 })) }
        ensures kept { IfOk result (λ q. AllByRecursion C.is_kept q.1.items × T.is_kept q.0) }
        ensures stands { IfOk result (λ q. (s : EngineState) (base : ℕ) → Stands s base self
            → PartStands (wants.All modes.Write) (replay s q.2.items) (map C.state q.1.items) (Some (record { state = T.stands q.0; slack = T.slack q.0 }))
            × (base ≤ T.slack q.0)
            × (length q.2.items < 2 ^ 62 → failures q.2.items ≡ T.fault_count q.0 + sum_by C.fault_count q.1.items)) }
    {
        if let Some(ticket) = self.grants.unreleased() {
            return Err((self, ticket));
        }
        let Book {
            grants: _,
            log,
            cells,
            infos: _,
            fresh: _,
            table,
            table_info: _,
            spares,
            lent: _,
            notes: _,
        } = self;
        let_go(spares);
        match table {
            Some(table) => Ok((table, cells, log)),
            None => unreachable!(),
        }
    }
}

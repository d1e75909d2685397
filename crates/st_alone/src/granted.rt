ghost use Rattle.std.specs.Prelude.{◌≡◌, ◌≤◌, ◌<◌, ◌+◌, ◌^◌, ◌∷◌, ◌++◌, [], false, map, length, option_map, IfSome};
ghost use Rattle.std.specs.List.{AllByRecursion, sum_by};
ghost use Rattle.st_units.specs.Roomy.{Roomy};
ghost use Rattle.st_model.specs.declared.entry.Entry.{Entry};
ghost use Rattle.st_model.specs.Parts.{pool_at, shown_table, started, table_of};
ghost use Rattle.st_model.specs.Shown.{pool_info};
ghost use Rattle.st_model.specs.Step.{step};
ghost use Rattle.st_history.specs.Failures.{failures_of};
ghost use Rattle.st_book.specs.View.{or_zero};
ghost use Rattle.st_alone.specs.Alone.{IsAfter, state_at, state_in};

use crate::home::Home;
use st_book::{Book, Event, Part};
use st_ghost::Ghost;
use st_model::{Board, Cell, EngineState, Entry, EntryList};
use st_wants::Want;
use std::marker::Model;
use std::snapshot::Snapshot;

/// A book of which one ticket is out.
pub struct Out<C: Cell, T: Board> {
    pub(crate) book: Book<C, T>,
    pub(crate) began: Snapshot<T>,
    pub(crate) opening: Ghost<EngineState>,
    pub(crate) state: Ghost<EngineState>,
    pub(crate) seat: u64,
    pub(crate) ticket: u64,
    pub(crate) want: Snapshot<Want>,
}

impl<C: Cell, T: Board> Model for Out<C, T> {
    ghost use Rattle.std.specs.Prelude.{◌≡◌};
    ghost use Rattle.st_history.specs.History.{replay};
    ghost use Rattle.st_alone.specs.Alone.{IsOut, OutView};
    ghost use Rattle.st_book.specs.View.{lent_at};

    ghost Value = { OutView };

    ghost view = { λ o. record {
      opening = o.opening.value;
      base = T.slack o.began.value;
      log = o.book.log;
      seat = o.seat;
      ticket = o.ticket;
      want = o.want.value;
      faults = lent_at o.ticket o.book.lent;
    } };

    ghost invariant = { λ o. IsOut o.opening.value (T.slack o.began.value) o.seat o.ticket o.want.value o.book × (o.state.value ≡ replay o.opening.value o.book.log) };
}

/// The state after the entry's call.
fn state_past(state: &Ghost<EngineState>, entry: &Entry) -> Ghost<EngineState>
    ensures { result.value ≡ (step state.now.value entry.now.call entry.now.env).1 }
{
    Ghost::new(state, entry)
}

/// A call that is granted: the book that it is out of, what it has of it, and room for its entry.
pub struct Taken<C: Cell, T: Board> {
    pub out: Out<C, T>,
    pub part: Part<C, T>,
    pub entries: EntryList,
}

impl<C: Cell, T: Board> Out<C, T> {
    /// The state in which the call runs.
    pub fn before(&self) -> &Ghost<EngineState>
        ensures { result.now.value ≡ state_in self.now }
    {
        &self.state
    }

    /// How many events there are so far: the place of the release that is to come.
    pub fn place(&self) -> usize
        ensures { result ≡ length self.now.log }
    {
        self.book.log().len()
    }

    #[tactic(none)]
    /// The call ran, and what it has comes back, with its entry.
    pub fn give_back(self, part: Part<C, T>, entries: EntryList, entry: Entry) -> Home<C, T>
        requires entries { (entries.items ≡ []) × (1 ≤ entries.room) }
        requires after { IsAfter (state_in self) self.want entry (map C.state part.cells.items) (option_map (λ x. record { state = T.stands x; slack = T.slack x }) part.table) }
        requires slack { IfSome part.table (λ x. self.base ≤ T.slack x) }
        requires spares { AllByRecursion (λ c. C.has_spare c ≡ false → option_map pool_info (pool_at (C.named c) (started (state_in self))) ≡ Some (pool_info (C.state c))) part.cells.items }
        requires spare { IfSome part.table (λ x. T.has_spare x ≡ false → shown_table (table_of (state_in self)) ≡ shown_table (T.stands x)) }
        requires faults { length self.log < 2 ^ 62 → or_zero (option_map T.fault_count part.table) + sum_by C.fault_count part.cells.items ≡ self.faults + failures_of (entry ∷ []) }
        requires kept { AllByRecursion C.is_kept part.cells.items × IfSome part.table T.is_kept }
        ensures same { (result.opening ≡ self.opening) × (result.base ≡ self.base) × (result.tickets ≡ self.ticket + 1) }
        ensures log { (held : Roomy Entry) × (held.items ≡ entry ∷ []) × (result.log ≡ self.log ++ Event.Release self.seat self.ticket held ∷ []) }
        ensures state { state_at result ≡ (step (state_in self) entry.call entry.env).1 }
    {
        let Out {
            mut book,
            began,
            opening,
            state,
            seat: _,
            ticket,
            want: _,
        } = self;
        let state = state_past(&state, &entry);
        let mut entries = entries;
        entries.put(entry);
        book.release(ticket, part, entries);
        Home {
            book,
            began,
            opening,
            state,
        }
    }
}

ghost use Rattle.std.specs.Prelude.{◌≡◌, ◌≤◌, ◌<◌, ◌+◌, ◌^◌, ◌∷◌, ◌++◌, [], false, true, map, length, option_map, Some, None, IfOk, IfErr, IfSome};
ghost use Rattle.std.specs.List.{AllByRecursion, sum_by};
ghost use Rattle.st_wants.specs.Lock.{start};
ghost use Rattle.st_wants.specs.Rules.{lock_run};
ghost use Rattle.st_wants.specs.declared.want.Want.TheVariants as wants;
ghost use Rattle.st_wants.specs.declared.want.Mode.TheVariants as modes;
ghost use Rattle.st_model.specs.Parts.{started, table_of};
ghost use Rattle.st_model.specs.Sound.{IsSound};
ghost use Rattle.st_model.specs.Valid.{IsValid};
ghost use Rattle.st_model.specs.Wanted.{want_of};
ghost use Rattle.st_history.specs.Failures.{failures};
ghost use Rattle.st_history.specs.History.{History, moves_of};
ghost use Rattle.st_book.specs.Stands.{PartShows, PartStands};
ghost use Rattle.st_book.specs.View.{or_zero};
ghost use Rattle.st_alone.specs.Alone.{IsGranted, IsTaken, state_at};

use crate::granted::{Out, Taken};
use st_book::{Book, Cells};
use st_ghost::Ghost;
use st_history::Log;
use st_model::{Board, Call, Cell, EngineState, EntryList, want_of};
use st_units::NoMemory;
use st_wants::Want;
use std::alloc::Global;
use std::marker::Model;
use std::snapshot::Snapshot;

/// A book between two calls: no ticket is out.
pub struct Home<C: Cell, T: Board> {
    pub(crate) book: Book<C, T>,
    /// The table as it was at the beginning.
    pub(crate) began: Snapshot<T>,
    /// The state that the book began with.
    pub(crate) opening: Ghost<EngineState>,
    /// The state after all that ran.
    pub(crate) state: Ghost<EngineState>,
}

impl<C: Cell, T: Board> Model for Home<C, T> {
    ghost use Rattle.std.specs.Prelude.{◌≡◌};
    ghost use Rattle.st_history.specs.History.{replay};
    ghost use Rattle.st_alone.specs.Alone.{HomeView, IsHome};

    ghost Value = { HomeView };

    ghost view = { λ h. record { opening = h.opening.value; base = T.slack h.began.value; log = h.book.log; tickets = h.book.lock.next } };

    ghost invariant = { λ h. IsHome h.opening.value (T.slack h.began.value) h.book × (h.state.value ≡ replay h.opening.value h.book.log) };
}

/// The memory that a call takes before it arrives: what it wants, and room for its entry.
fn ready(alloc: Global, call: &Call) -> Result<(Want, EntryList), NoMemory>
    requires { IsSound call.now }
    ensures want { IfOk result (λ r. r.0 ≡ want_of call.now) }
    ensures room { IfOk result (λ r. (r.1.items ≡ []) × (1 ≤ r.1.room)) }
{
    let want = want_of(call)?;
    let entries = EntryList::with_room(alloc, 1)?;
    Ok((want, entries))
}

/// What a book held at its end.
pub struct Closed<C: Cell, T: Board> {
    pub table: T,
    pub cells: Cells<C>,
    pub log: Log,
    /// The state after all that ran.
    pub state: Ghost<EngineState>,
}

/// The same state once more.
fn copy_of(state: &Ghost<EngineState>) -> Ghost<EngineState>
    ensures { result.value ≡ state.now.value }
{
    Ghost::new(state, state)
}

impl<C: Cell, T: Board> Home<C, T> {
    #[tactic(none)]
    /// A book with this table, which stands for this state, in which no pool is started; no ticket is out. A refusal hands both back.
    pub fn begin(
        alloc: Global,
        table: T,
        state: Ghost<EngineState>,
    ) -> Result<Home<C, T>, (T, Ghost<EngineState>)>
        requires spare { T.has_spare table ≡ true }
        requires faults { T.fault_count table ≡ 0 }
        requires kept { T.is_kept table }
        requires valid { IsValid state.value }
        requires stands { table_of state.value ≡ T.stands table }
        requires quiet { started state.value ≡ [] }
        ensures new { IfOk result (λ home. home ≡ record { opening = state.value; base = T.slack table; log = []; tickets = 0 }) }
        ensures back { IfErr result (λ e. (e.0 ≡ table) × (e.1.value ≡ state.value)) }
    {
        let began = Snapshot::of(&table);
        let opening = copy_of(&state);
        match Book::make(alloc, table) {
            Ok(book) => Ok(Home {
                book,
                began,
                opening,
                state,
            }),
            Err((table, NoMemory)) => Err((table, state)),
        }
    }

    /// The call arrives by the seat, and is granted what it wants. A refusal comes before it arrives, and hands the book back.
    #[tactic(none)]
    pub fn take(
        self,
        alloc: Global,
        seat: u64,
        call: &Call,
    ) -> Result<Taken<C, T>, (Home<C, T>, NoMemory)>
        requires { IsSound call.now }
        ensures taken { IfOk result (λ t. IsTaken self seat call.now t.out t.entries) }
        ensures part { IfOk result (λ t. PartStands (want_of call.now) (state_at self) (map C.state t.part.cells.items) (option_map (λ x. record { state = T.stands x; slack = T.slack x }) t.part.table)) }
        ensures slack { IfOk result (λ t. IfSome t.part.table (λ x. self.base ≤ T.slack x)) }
        ensures shown { IfOk result (λ t. t.part.short ≡ false → PartShows (want_of call.now) (state_at self) (map C.shows t.part.infos.items) (option_map T.shows t.part.table_info)) }
        ensures faults { IfOk result (λ t. length t.out.log < 2 ^ 62 → (t.out.faults ≡ or_zero (option_map T.fault_count t.part.table) + sum_by C.fault_count t.part.cells.items) × (t.out.faults < 2 ^ 63)) }
        ensures kept { IfOk result (λ t. AllByRecursion C.is_kept t.part.cells.items × IfSome t.part.table T.is_kept) }
        ensures places { IfOk result (λ t. 16 ≤ length t.part.cells.items + t.part.cells.room) }
        ensures back { IfErr result (λ e. e.0 ≡ self) }
    {
        match ready(alloc, call) {
            Ok((want, entries)) => self.taken(alloc, seat, want, entries),
            Err(refused) => Err((self, refused)),
        }
    }

    /// Arrives with this want, and is granted it.
    #[tactic(none)]
    fn taken(
        self,
        alloc: Global,
        seat: u64,
        want: Want,
        entries: EntryList,
    ) -> Result<Taken<C, T>, (Home<C, T>, NoMemory)>
        ensures taken { IfOk result (λ t. IsGranted self seat want t.out × (t.entries ≡ entries)) }
        ensures part { IfOk result (λ t. PartStands want (state_at self) (map C.state t.part.cells.items) (option_map (λ x. record { state = T.stands x; slack = T.slack x }) t.part.table)) }
        ensures slack { IfOk result (λ t. IfSome t.part.table (λ x. self.base ≤ T.slack x)) }
        ensures shown { IfOk result (λ t. t.part.short ≡ false → PartShows want (state_at self) (map C.shows t.part.infos.items) (option_map T.shows t.part.table_info)) }
        ensures faults { IfOk result (λ t. length t.out.log < 2 ^ 62 → (t.out.faults ≡ or_zero (option_map T.fault_count t.part.table) + sum_by C.fault_count t.part.cells.items) × (t.out.faults < 2 ^ 63)) }
        ensures kept { IfOk result (λ t. AllByRecursion C.is_kept t.part.cells.items × IfSome t.part.table T.is_kept) }
        ensures places { IfOk result (λ t. 16 ≤ length t.part.cells.items + t.part.cells.room) }
        ensures back { IfErr result (λ e. e.0 ≡ self) }
    {
        let Home {
            mut book,
            began,
            opening,
            state,
        } = self;
        let wanted = Snapshot::of(&want);
        let ticket = match book.arrive(alloc, seat, want) {
            Ok(ticket) => ticket,
            Err((_want, refused)) => {
                let home = Home {
                    book,
                    began,
                    opening,
                    state,
                };
                return Err((home, refused));
            }
        };
        let Ok(part) = book.grant(ticket) else {
            unreachable!()
        };
        let out = Out {
            book,
            began,
            opening,
            state,
            seat,
            ticket,
            want: wanted,
        };
        Ok(Taken { out, part, entries })
    }

    #[tactic(none)]
    /// Ends the book, and gives out what it holds.
    pub fn close(self) -> Closed<C, T>
        ensures log { result.log.items ≡ self.log }
        ensures state { result.state.value ≡ state_at self }
        ensures history { History self.opening self.log }
        ensures quiet { (lock_run start (moves_of self.log)).rows ≡ [] }
        ensures valid { IsValid (state_at self) }
        ensures part { PartStands (wants.All modes.Write) (state_at self) (map C.state result.cells.items) (Some (record { state = T.stands result.table; slack = T.slack result.table })) }
        ensures slack { self.base ≤ T.slack result.table }
        ensures faults { length self.log < 2 ^ 62 → failures self.log ≡ T.fault_count result.table + sum_by C.fault_count result.cells.items }
        ensures kept { AllByRecursion C.is_kept result.cells.items × T.is_kept result.table }
    {
        let Home {
            book,
            began: _,
            opening: _,
            state,
        } = self;
        match book.close() {
            Ok((table, cells, log)) => Closed {
                table,
                cells,
                log,
                state,
            },
            Err(_) => unreachable!(),
        }
    }
}

ghost use Rattle.std.specs.Prelude.{◌≡◌, ◌≤◌, ◌<◌, ◌+◌, ◌-◌, ◌^◌, ◌∷◌, [], ℕ, false, true, map, length, option_map, IfSome, Some};
ghost use Rattle.std.specs.List.{AllByRecursion};
ghost use Rattle.st_model.specs.Parts.{pool_at, shown_table, started, table_of};
ghost use Rattle.st_model.specs.Shown.{pool_info};
ghost use Rattle.st_model.specs.Valid.{IsValid};
ghost use Rattle.st_model.specs.Wanted.{want_of};
ghost use Rattle.st_history.specs.Failures.{failures_of};
ghost use Rattle.st_book.specs.Stands.{PartShows, PartStands};
ghost use Rattle.st_pool.specs.View.{IsKeptOn};
ghost use Rattle.st_board.specs.Holds.{IsBoardKept};
ghost use Rattle.st_board.specs.View.{pools_of, slack_of};
ghost use Rattle.st_alone.specs.Alone.{IsAfter};
ghost use Rattle.st_running.specs.Calls.{runs};
ghost use Rattle.st_running.specs.Part.{as_table, faults_out};

use st_ghost::Ghost;
use st_model::{Call, EngineState, Entry, Origin};
use st_pool::PoolReply;
use st_rack::Rack;
use st_running::{EnginePart, RanOn, run_on, what_comes_back};
use std::alloc::Global;

/// What a ticket has after its call, and the call's entry.
pub(crate) struct RanPart<R: Rack> {
    pub part: EnginePart<R>,
    pub entry: Entry,
}

#[tactic(none)]
/// Runs the call of the line with this number on what its ticket has, in the state that was before it, and makes its entry. A fault of a
/// device and want of memory are answered in the entry.
pub(crate) fn run_part<R: Rack>(
    alloc: Global,
    number: u64,
    call: Call,
    part: EnginePart<R>,
    before: &Ghost<EngineState>,
) -> RanPart<R>
    requires runs { runs call ≡ true }
    requires valid { IsValid before.now.value }
    requires part { PartStands (want_of call) before.now.value (pools_of part.cells.items) (option_map (as_table R.faults) part.table) }
    requires kept { AllByRecursion (IsKeptOn R.devs R.moment R.state_at) part.cells.items × IfSome part.table (IsBoardKept R.devs R.moment R.state_at) }
    requires shown { part.short ≡ false → PartShows (want_of call) before.now.value (map (λ i. i) part.infos.items) (option_map (λ i. i) part.table_info) }
    requires places { 16 ≤ length part.cells.items + part.cells.room }
    ensures after { IsAfter before.now.value (want_of call) result.entry (pools_of result.part.cells.items) (option_map (as_table R.faults) result.part.table) }
    ensures of { (result.entry.call ≡ call) × (result.entry.from ≡ Origin.Line number) }
    ensures slack { (base : ℕ) → IfSome part.table (λ x. base ≤ slack_of R.faults x) → IfSome result.part.table (λ x. base ≤ slack_of R.faults x) }
    // An info to give is missing only where nothing changed that it shows.
    ensures spares { AllByRecursion (λ c. c.spare ≡ false → option_map pool_info (pool_at c.pool.name (started before.now.value)) ≡ Some (pool_info c.pool)) result.part.cells.items }
    ensures spare { IfSome result.part.table (λ x. x.spare ≡ false → shown_table (table_of before.now.value) ≡ shown_table x.state) }
    // A fault of a device that is answered is counted, as long as the counts go.
    ensures faults { faults_out part.cells.items part.table < 2 ^ 64 - 1 → faults_out result.part.cells.items result.part.table ≡ faults_out part.cells.items part.table + failures_of (result.entry ∷ []) }
    ensures kept { AllByRecursion (IsKeptOn R.devs R.moment R.state_at) result.part.cells.items × IfSome result.part.table (IsBoardKept R.devs R.moment R.state_at) }
{
    what_comes_back::<R>();
    let RanOn { part, answer } = run_on(alloc, &call, part, before);
    let PoolReply {
        reply,
        twin: _,
        env,
        low: _,
    } = answer;
    let entry = Entry {
        call,
        env,
        from: Origin::Line(number),
        reply,
    };
    RanPart { part, entry }
}

ghost use Rattle.std.specs.Prelude.{◌≡◌, ◌≤◌, [], true, IfOk};
ghost use Rattle.st_model.specs.declared.state.EngineState.{EngineState};
ghost use Rattle.st_model.specs.Parts.{table_of};
ghost use Rattle.st_table.specs.Stands.{Stands};
ghost use Rattle.st_begin.specs.Begun.{IsAtRest, IsBoardOf, IsRejoined};

use crate::rejoin::join_back;
use crate::rows::rows_of;
use crate::told::table_on;
use st_assemble::Found;
use st_board::EngineBoard;
use st_dividing::divide;
use st_pool::Halted;
use st_rack::Rack;
use st_table::Table;
use st_tabling::table_for;
use st_units::{NoMemory, RoomyList};
use std::alloc::Global;

/// How many pools may be known.
const MOST_POOLS: usize = 16;

/// The board on the rack's devices, or the rack after want of memory.
pub(crate) enum Boarded<R: Rack> {
    Ready(EngineBoard<R>),
    NoMemory(R),
}

/// What is made before the rack is divided.
struct Prepared<R: Rack> {
    table: Table,
    halted: RoomyList<Halted<R>>,
}

/// Divides a rack on which this was found, and makes the board.
pub(crate) fn board_on<R: Rack>(alloc: Global, rack: R, found: &Found) -> Boarded<R>
    requires { (e : EngineState) × IsAtRest (R.devs rack) (R.state_at rack (R.moment rack)) found.now e }
    ensures ready { (b : _) → result ≡ Boarded.Ready b → (e : EngineState) → IsAtRest (R.devs rack) (R.state_at rack (R.moment rack)) found.now e → IsBoardOf R.devs R.moment R.state_at R.faults R.spare rack e b }
    ensures refused { (r : _) → result ≡ Boarded.NoMemory r → IsRejoined R.devs R.moment R.state_at R.faults rack r }
{
    match prepare(alloc, &rack, found) {
        Ok(made) => parted(alloc, rack, found, made),
        Err(_) => Boarded::NoMemory(rack),
    }
}

/// Makes the table, and the list for the pools.
fn prepare<R: Rack>(alloc: Global, rack: &R, found: &Found) -> Result<Prepared<R>, NoMemory>
    requires { (e : EngineState) × IsAtRest (R.devs rack.now) (R.state_at rack.now (R.moment rack.now)) found.now e }
    ensures table { IfOk result (λ made. (e : EngineState) → IsAtRest (R.devs rack.now) (R.state_at rack.now (R.moment rack.now)) found.now e → Stands made.table (table_of e)) }
    ensures spare { IfOk result (λ made. made.table.spare ≡ true) }
    ensures items { IfOk result (λ made. made.halted.items ≡ []) }
    ensures room { IfOk result (λ made. 16 ≤ made.halted.room) }
{
    let rows = rows_of(alloc, rack)?;
    let table = table_for(alloc, &rows, &found.pools, found.next)?;
    match RoomyList::with_room(alloc, MOST_POOLS) {
        Ok(halted) => Ok(Prepared { table, halted }),
        Err(_) => Err(NoMemory),
    }
}

/// Divides the rack, and makes the board of the table.
fn parted<R: Rack>(alloc: Global, rack: R, found: &Found, made: Prepared<R>) -> Boarded<R>
    requires rest { (e : EngineState) × IsAtRest (R.devs rack) (R.state_at rack (R.moment rack)) found.now e }
    requires table { (e : EngineState) → IsAtRest (R.devs rack) (R.state_at rack (R.moment rack)) found.now e → Stands made.table (table_of e) }
    requires spare { made.table.spare ≡ true }
    requires items { made.halted.items ≡ [] }
    requires room { 16 ≤ made.halted.room }
    ensures ready { (b : _) → result ≡ Boarded.Ready b → (e : EngineState) → IsAtRest (R.devs rack) (R.state_at rack (R.moment rack)) found.now e → IsBoardOf R.devs R.moment R.state_at R.faults R.spare rack e b }
    ensures refused { (r : _) → result ≡ Boarded.NoMemory r → IsRejoined R.devs R.moment R.state_at R.faults rack r }
{
    let state = table_on(&rack, found.next);
    let Prepared { table, mut halted } = made;
    let mut rack = rack;
    match divide(alloc, &mut rack, &found.pools, &mut halted) {
        Ok(()) => Boarded::Ready(EngineBoard {
            table,
            free: rack,
            halted,
            past: 0,
            state,
        }),
        Err(_) => {
            join_back(&mut rack, &mut halted);
            halted.finish();
            Boarded::NoMemory(rack)
        }
    }
}

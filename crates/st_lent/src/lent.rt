ghost use Rattle.std.specs.Prelude.{◌≡◌, ◌≤◌, ◌<◌, ◌+◌, ◌∷◌, ◌++◌, [], Some, length, min, remove, slice_get};
ghost use Rattle.st_model.specs.declared.state.PoolState.{PoolState};
ghost use Rattle.st_rack.specs.Parts.{Joins};
ghost use Rattle.st_table.specs.Stands.{Stands};
ghost use Rattle.st_pool.specs.Halts.{Halts};
ghost use Rattle.st_board.specs.Holds.{stopped_at};
ghost use Rattle.st_board.specs.View.{last};
ghost use Rattle.st_lent.specs.Lent.{HasVanished, HasWoken, IsTheOne};

use st_board::EngineBoard;
use st_ghost::Ghost;
use st_model::TableState;
use st_pool::Halted;
use st_rack::Rack;
use st_table::{Table, keeps_as_the_model};
use st_units::{PoolSerial, RoomyList};
use std::marker::Model;

/// The engine's board without one of its pools that aren't started. Contracts see what they see of the board, and the serial of the pool
/// that is out.
pub struct Lent<R: Rack> {
    table: Table,
    free: R,
    halted: RoomyList<Halted<R>>,
    past: u64,
    state: Ghost<TableState>,
    out: PoolSerial,
}

impl<R: Rack> Model for Lent<R> {
    ghost use Rattle.st_lent.specs.Lent.{HoldsBut, LentView};

    ghost Value = { LentView R };

    ghost view = { λ b. record { state = b.state.value; spare = b.table.spare; free = b.free; halted = b.halted.items; past = b.past; out = b.out } };

    ghost invariant = { λ b. HoldsBut R.devs R.moment R.state_at R.faults R.spare b.out b.table b.free b.halted b.past b.state.value };
}

/// A pool of a board, and the board without it.
pub struct Loan<R: Rack> {
    pub board: Lent<R>,
    pub pool: Halted<R>,
}

/// Takes the pool at this place out of those that aren't started.
pub fn lend<R: Rack>(board: EngineBoard<R>, place: usize) -> Loan<R>
    requires { place < length board.halted }
    ensures at { slice_get board.halted place ≡ Some result.pool }
    ensures halts { (p : PoolState) × (stopped_at result.pool.serial board.state.stopped ≡ Some p) × Halts R.devs R.moment R.state_at p result.pool }
    ensures lent { result.board ≡ record { state = board.state; spare = board.spare; free = board.free; halted = remove board.halted place; past = board.past; out = result.pool.serial } }
{
    let EngineBoard {
        table,
        free,
        mut halted,
        past,
        state,
    } = board;
    let pool = halted.take_at(place);
    let out = pool.serial();
    let board = Lent {
        table,
        free,
        halted,
        past,
        state,
        out,
    };
    Loan { board, pool }
}

impl<R: Rack> Lent<R> {
    /// The pool comes back: it stays what it was, whatever its devices met.
    pub fn back(self, pool: Halted<R>) -> EngineBoard<R>
        requires { IsTheOne R.devs R.moment R.state_at self.out self.state pool }
        ensures { result ≡ record { state = self.state; spare = self.spare; free = self.free; halted = self.halted ++ pool ∷ []; past = self.past } }
    {
        let Lent {
            table,
            free,
            mut halted,
            past,
            state,
            out: _,
        } = self;
        halted.put(pool);
        EngineBoard {
            table,
            free,
            halted,
            past,
            state,
        }
    }

    /// The pool is started now. The table tells so.
    pub fn woken(self, table: Table, state: Ghost<TableState>) -> EngineBoard<R>
        requires woken { HasWoken self.state state.value self.out }
        requires table { Stands table state.value }
        ensures { result ≡ record { state = state.value; spare = table.spare; free = self.free; halted = self.halted; past = self.past } }
    {
        keeps_as_the_model();
        let Lent {
            table: _,
            free,
            halted,
            past,
            state: _,
            out: _,
        } = self;
        EngineBoard {
            table,
            free,
            halted,
            past,
            state,
        }
    }

    /// The pool, of which so many operations met a fault, is known no more. Its devices join the free ones. The table tells so.
    pub fn vanished(
        self,
        table: Table,
        rack: R,
        faults: u64,
        state: Ghost<TableState>,
    ) -> EngineBoard<R>
        requires vanished { HasVanished R.devs R.moment R.state_at self.state state.value self.out rack }
        requires table { Stands table state.value }
        requires counted { faults ≤ R.faults rack }
        ensures state { result ≡ record { state = state.value; spare = table.spare; free = result.free; halted = self.halted; past = min (self.past + faults) last } }
        ensures joined { Joins R.devs R.moment R.state_at self.free rack result.free }
        ensures faults { R.faults result.free ≡ min (R.faults self.free + R.faults rack) last }
    {
        let Lent {
            table: _,
            mut free,
            halted,
            past,
            state: _,
            out: _,
        } = self;
        let _ = free.devices();
        let _ = rack.devices();
        free.absorb(rack);
        EngineBoard {
            table,
            free,
            halted,
            past: past.saturating_add(faults),
            state,
        }
    }
}

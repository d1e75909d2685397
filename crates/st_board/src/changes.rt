ghost use Rattle.std.specs.Prelude.{◌≡◌, ◌≤◌, ◌+◌, ◌^◌, ◌∷◌, ◌++◌, [], min, true, false, length};
ghost use Rattle.st_model.specs.declared.state.PoolState.{PoolState};
ghost use Rattle.st_rack.specs.Parts.{Joins};
ghost use Rattle.st_table.specs.Stands.{Stands};
ghost use Rattle.st_pool.specs.Halts.{Halts};
ghost use Rattle.st_board.specs.Changes.{HasGone, HasTurned};
ghost use Rattle.st_board.specs.View.{last};

use crate::board::EngineBoard;
use st_ghost::Ghost;
use st_model::TableState;
use st_pool::Halted;
use st_rack::Rack;
use st_table::{Table, keeps_as_the_model};

impl<R: Rack> EngineBoard<R> {
    /// A started pool has become another, which uses the same devices. The table tells so.
    pub fn other(self, table: Table, state: Ghost<TableState>) -> EngineBoard<R>
        requires turned { (q : PoolState) × HasTurned self.state state.value true q }
        requires table { Stands table state.value }
        ensures { result ≡ record self { state = state.value; spare = table.spare } }
    {
        keeps_as_the_model();
        let EngineBoard {
            table: _,
            free,
            halted,
            past,
            state: _,
        } = self;
        EngineBoard {
            table,
            free,
            halted,
            past,
            state,
        }
    }

    /// A started pool has been stopped. The table tells so.
    pub fn stopped(self, table: Table, pool: Halted<R>, state: Ghost<TableState>) -> EngineBoard<R>
        requires turned { (q : PoolState) × HasTurned self.state state.value false q × Halts R.devs R.moment R.state_at q pool }
        requires table { Stands table state.value }
        ensures { result ≡ record self { state = state.value; spare = table.spare; halted = self.halted ++ pool ∷ [] } }
    {
        keeps_as_the_model();
        let EngineBoard {
            table: _,
            free,
            mut halted,
            past,
            state: _,
        } = self;
        halted.put(pool);
        EngineBoard {
            table,
            free,
            halted,
            past,
            state,
        }
    }

    /// A started pool, of which so many operations met a fault, is gone. Its devices join the free ones. The table tells so.
    pub fn freed(
        self,
        table: Table,
        rack: R,
        faults: u64,
        state: Ghost<TableState>,
    ) -> EngineBoard<R>
        requires gone { HasGone R.devs R.moment R.state_at self.state state.value rack }
        requires table { Stands table state.value }
        requires counted { faults ≤ R.faults rack }
        ensures state { result ≡ record self { state = state.value; spare = table.spare; free = result.free; past = min (self.past + faults) last } }
        ensures joined { Joins R.devs R.moment R.state_at self.free rack result.free }
        ensures faults { R.faults result.free ≡ min (R.faults self.free + R.faults rack) last }
    {
        keeps_as_the_model();
        let EngineBoard {
            table: _,
            mut free,
            halted,
            past,
            state: _,
        } = self;
        let _ = free.devices();
        let _ = rack.devices();
        free.absorb(rack);
        EngineBoard {
            table,
            free,
            halted,
            past: past.saturating_add(faults),
            state,
        }
    }
}

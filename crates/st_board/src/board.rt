ghost use Rattle.std.specs.Prelude.{◌≡◌, ◌+◌, ◌^◌, min};
ghost use Rattle.std.specs.List.{sum_by};
ghost use Rattle.st_board.specs.View.{last};

use st_ghost::Ghost;
use st_model::{Board, TableInfo, TableState};
use st_pool::Halted;
use st_rack::Rack;
use st_table::{Table, tells_of_each_pool};
use st_units::{RoomyList, Shared};
use std::marker::Model;

/// What the engine keeps beside its started pools. Contracts see the state of the table that it stands for, whether it has an info to
/// give, and its racks.
pub struct EngineBoard<R: Rack> {
    pub table: Table,
    /// The rack of the devices that no pool uses.
    pub free: R,
    /// The pools that aren't started, each on a rack of its own devices.
    pub halted: RoomyList<Halted<R>>,
    /// How many operations of pools that ended were answered with a fault of a device, up to 2^64 - 1.
    pub past: u64,
    /// What the board stands for.
    pub state: Ghost<TableState>,
}

impl<R: Rack> Model for EngineBoard<R> {
    ghost use Rattle.st_board.specs.View.{BoardView};
    ghost use Rattle.st_board.specs.Holds.{Holds};

    ghost Value = { BoardView R };

    ghost view = { λ b. record { state = b.state.value; spare = b.table.spare; free = b.free; halted = b.halted.items; past = b.past } };

    ghost invariant = { λ b. Holds R.devs R.moment R.state_at R.faults R.spare b.table b.free b.halted b.past b.state.value };
}

impl<R: Rack> Board for EngineBoard<R> {
    ghost use Rattle.st_board.specs.View.{faults_of, slack_of};
    ghost use Rattle.st_board.specs.Holds.{IsBoardKept};

    type Info = TableInfo;

    ghost stands = { λ b. b.state };

    ghost is_kept = { λ b. IsBoardKept R.devs R.moment R.state_at b };

    ghost has_spare = { λ b. b.spare };

    ghost fault_count = { λ b. faults_of b };

    ghost past = { λ b. b.past };

    ghost slack = { λ b. slack_of R.faults b };

    ghost shows = { λ i. i };

    fn info(&mut self) -> Option<Shared<TableInfo>> {
        tells_of_each_pool();
        self.table.info()
    }

    /// The sum of the faults of the pools that aren't started and of those that ended, up to 2^64 - 1.
    fn faults(&self) -> u64 {
        sum_of(self.past, self.halted.items())
    }
}

/// A number and the faults of pools that aren't started, up to 2^64 - 1.
fn sum_of<R: Rack>(past: u64, halted: &[Halted<R>]) -> u64
    ensures { result ≡ min (past + sum_by (λ h. h.faults) halted.now) last }
{
    let mut sum = past;
    for pool in halted {
        sum = sum.saturating_add(pool.faults());
    }
    sum
}

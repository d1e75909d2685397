ghost use Rattle.std.specs.Prelude.{◌≡◌, ◌≤◌, ◌-◌, ◌^◌, true, IfErr, IfOk, OnErr};
ghost use mathlib.Core.List.{IsPrefix};
ghost use Rattle.st_board.specs.View.{faults_of, slack_of};
ghost use Rattle.st_lock.specs.Opening.{IsOpening, state_of};
ghost use Rattle.st_lock.specs.Seats.{first_lock_seat, lock_join, lock_new, lock_split};

use st_board::EngineBoard;
use st_lock::{AllOrSome, Seat};
use st_pool::Pool;
use st_rack::Rack;
use st_running::board_keeps;
use st_units::NoMemory;
use std::alloc::Global;
use std::marker::Model;

/// The engine. Contracts see the lock that its seats are of.
pub struct Engine<R: Rack> {
    pub(crate) lock: AllOrSome<Pool<R>, EngineBoard<R>>,
}

impl<R: Rack> Model for Engine<R> {
    ghost use Rattle.atomic_table.specs.Seated.{TableId};

    ghost Value = { TableId };

    ghost view = { λ e. e.lock };
}

/// A seat of the engine, for one thread at a time.
pub type EngineSeat<R> = Seat<Pool<R>, EngineBoard<R>>;

impl<R: Rack> Engine<R> {
    /// An engine over this board, with no started pool, and its first seat. A refusal hands the board back.
    pub fn make(
        alloc: Global,
        board: EngineBoard<R>,
    ) -> Result<(Engine<R>, EngineSeat<R>), (EngineBoard<R>, NoMemory)>
        requires spare { board.spare ≡ true }
        requires faults { faults_of board ≡ 0 }
        requires opens { IsOpening board.state }
        ensures first { IfOk result (λ made. made.1 ≡ first_lock_seat made.0 (record { state = state_of board.state; base = slack_of R.faults board })) }
        ensures back { IfErr result (λ e. e.0 ≡ board) }
    {
        board_keeps(&board);
        match AllOrSome::make(alloc, board) {
            Ok((lock, seat)) => Ok((Engine { lock }, seat)),
            Err(refused) => Err(refused),
        }
    }

    /// A new seat, which has seen what the one has. It takes no memory.
    pub fn split(&self, seat: &mut EngineSeat<R>) -> Result<EngineSeat<R>, NoMemory>
        requires here { seat.old.turn ≡ self.now }
        ensures split { IfOk result (λ new. (seat.new ≡ lock_split seat.old new.number) × (new ≡ lock_new seat.old new.number)) }
        ensures fresh { IfOk result (λ new. seat.old.counted ≤ new.number) }
        ensures full { OnErr result (seat.new ≡ record seat.old { counted = 2 ^ 64 - 1 }) }
    {
        self.lock.split(seat)
    }

    /// Takes another seat in.
    pub fn join(&self, seat: &mut EngineSeat<R>, other: EngineSeat<R>)
        requires here { (seat.old.turn ≡ self.now) × (other.turn ≡ self.now) }
        ensures both { seat.new ≡ lock_join seat.old other }
        ensures seen { IsPrefix seat.old.seen seat.new.seen × IsPrefix other.seen seat.new.seen }
    {
        self.lock.join(seat, other);
    }
}

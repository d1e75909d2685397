// The end of an engine.
ghost use Rattle.std.specs.Prelude.{◌≡◌};
ghost use Rattle.st_engine.specs.Closed.{IsClosed, IsLeft, IsUnjoined};

use crate::engine::{Engine, EngineSeat};
use st_board::EngineBoard;
use st_book::{Cells, Log};
use st_lock::Shut;
use st_pool::Pool;
use st_rack::Rack;

/// What became of an engine that was to be closed.
pub enum Closed<R: Rack> {
    /// It is closed: its board, its started pools and its log.
    Quiet(EngineBoard<R>, Cells<Pool<R>>, Log),
    /// So many other seats were made and not joined into this one, directly or through others.
    Unjoined(Engine<R>, EngineSeat<R>, u64),
    /// The least ticket that isn't released.
    Left(Engine<R>, EngineSeat<R>, u64),
}

impl<R: Rack> Engine<R> {
    /// Ends the engine, where every other seat was joined into this one and no ticket is left; else engine and seat come back. It takes
    /// no memory.
    pub fn close(self, seat: EngineSeat<R>) -> Closed<R>
        requires here { seat.turn ≡ self }
        ensures quiet { (board cells log : _) → result ≡ Closed.Quiet board cells log → IsClosed R.devs R.moment R.state_at R.faults seat log.items cells.items board }
        ensures unjoined { (engine back n : _) → result ≡ Closed.Unjoined engine back n → (engine ≡ self) × IsUnjoined seat back n }
        ensures left { (engine back ticket : _) → result ≡ Closed.Left engine back ticket → (engine ≡ self) × IsLeft seat back ticket }
    {
        let Engine { lock } = self;
        match lock.close(seat) {
            Shut::Quiet(board, cells, log) => Closed::Quiet(board, cells, log),
            Shut::Unjoined(lock, seat, others) => Closed::Unjoined(Engine { lock }, seat, others),
            Shut::Left(lock, seat, ticket) => Closed::Left(Engine { lock }, seat, ticket),
        }
    }
}

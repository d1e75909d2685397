ghost use Rattle.std.specs.Prelude.{◌≡◌, ℕ};
ghost use Rattle.st_units.specs.Causes.{Rose};
ghost use Rattle.st_rack.specs.Calls.{IsFit};
ghost use Rattle.st_rack.specs.Device.{held};
ghost use Rattle.st_image.specs.Rack.{IsForeign};
ghost use Rattle.st_begin.specs.Begun.{HasBegun, IsBack};

use crate::boarded::{Boarded, board_on};
use st_assemble::FoundFault;
use st_board::EngineBoard;
use st_opening::open;
use st_rack::Rack;
use st_sound::found_is_valid;
use st_units::PoolSerial;
use std::alloc::Global;

/// What became of a rack on which the engine was to begin.
pub enum Begun<R: Rack> {
    /// The board: no pool is started.
    Ready(EngineBoard<R>),
    /// A device failed.
    Fault(R),
    /// The devices stand for no state; the serial is the least that breaks a rule.
    Foreign(PoolSerial, R),
    /// Memory was refused.
    NoMemory(R),
}

/// Begins the engine on a rack: syncs and reads its devices, finishes pools that are gone, and takes each pool's devices apart.
///
/// What isn't a board gives all devices back in one rack.
pub fn begin_board<R: Rack>(alloc: Global, rack: R) -> Begun<R>
    requires { IsFit (R.devs rack) }
    ensures ready { (b : _) → result ≡ Begun.Ready b → HasBegun R.devs R.moment R.state_at R.faults R.spare rack b }
    ensures fault { (r : _) → result ≡ Begun.Fault r → Rose (R.faults rack) (R.faults r) }
    ensures fault_back { (r : _) → result ≡ Begun.Fault r → IsBack R.devs R.moment R.state_at R.faults rack r }
    ensures foreign { (n r : _) → result ≡ Begun.Foreign n r → IsForeign (R.devs rack) (held (R.state_at rack (R.moment rack))) n }
    ensures foreign_back { (n r : _) → result ≡ Begun.Foreign n r → IsBack R.devs R.moment R.state_at R.faults rack r }
    ensures refused { (r : _) → result ≡ Begun.NoMemory r → IsBack R.devs R.moment R.state_at R.faults rack r }
{
    found_is_valid();
    let _ = rack.devices();
    let mut rack = rack;
    match open(alloc, &mut rack) {
        Ok(found) => match board_on(alloc, rack, &found) {
            Boarded::Ready(board) => Begun::Ready(board),
            Boarded::NoMemory(rack) => Begun::NoMemory(rack),
        },
        Err(FoundFault::Fault) => Begun::Fault(rack),
        Err(FoundFault::Foreign(serial)) => Begun::Foreign(PoolSerial::of(serial), rack),
        Err(FoundFault::OutOfMemory) => Begun::NoMemory(rack),
    }
}

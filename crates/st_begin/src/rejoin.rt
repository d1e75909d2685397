ghost use Rattle.std.specs.Prelude.{◌≡◌, []};
ghost use Rattle.st_dividing.specs.Divided.{Divides};
ghost use Rattle.st_begin.specs.Begun.{IsRejoined};

use st_pool::Halted;
use st_rack::Rack;
use st_units::RoomyList;

/// Puts the racks of the pools back into the rack that they were taken from.
pub fn join_back<R: Rack>(rack: &mut R, parts: &mut RoomyList<Halted<R>>)
    requires { (whole : R) × Divides R.devs R.moment R.state_at R.faults R.spare whole rack.old parts.old.items }
    ensures joined { (whole : R) → Divides R.devs R.moment R.state_at R.faults R.spare whole rack.old parts.old.items → IsRejoined R.devs R.moment R.state_at R.faults whole rack.new }
    ensures none { parts.new.items ≡ [] }
{
    for _ in 0..parts.len() {
        let part = parts.take_at(0);
        rack.absorb(part.part());
    }
}

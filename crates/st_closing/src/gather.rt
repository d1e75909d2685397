ghost use Rattle.std.specs.Prelude.{◌≡◌, [], ◌++◌, ◌∷◌, List, map};
ghost use Rattle.st_units.specs.declared.rows.DevRow.{DevRow};
ghost use Rattle.st_closing.specs.inner.Gathering.{HasGathered, HasGatheredStarted, MayGather, rack_of, rack_in};

use st_pool::{Halted, Pool};
use st_rack::Rack;
use st_units::RoomyList;

/// Puts the racks of pools that aren't started into the rack.
pub(crate) fn join_halted<R: Rack>(rack: &mut R, parts: &mut RoomyList<Halted<R>>)
    requires { (rows : List DevRow) × (rest : List R) × MayGather R.devs R.spare rows (rack.old ∷ map rack_of parts.old.items ++ rest) }
    ensures gathered { HasGathered R.devs R.moment R.state_at R.faults R.spare rack.old parts.old.items rack.new }
    ensures none { parts.new.items ≡ [] }
{
    for _ in 0..parts.len() {
        let part = parts.take_at(0);
        let _ = part.faults();
        let own = part.part();
        let _ = own.devices();
        let _ = rack.devices();
        rack.absorb(own);
    }
}

/// Puts the racks of started pools into the rack.
pub(crate) fn join_started<R: Rack>(rack: &mut R, cells: &mut RoomyList<Pool<R>>)
    requires { (rows : List DevRow) × (rest : List R) × MayGather R.devs R.spare rows (rack.old ∷ map rack_in cells.old.items ++ rest) }
    ensures gathered { HasGatheredStarted R.devs R.moment R.state_at R.faults R.spare rack.old cells.old.items rack.new }
    ensures none { cells.new.items ≡ [] }
{
    for _ in 0..cells.len() {
        let pool = cells.take_at(0);
        let _ = pool.faults();
        let own = pool.stop().part();
        let _ = own.devices();
        let _ = rack.devices();
        rack.absorb(own);
    }
}

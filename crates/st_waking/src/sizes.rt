ghost use Rattle.std.specs.Prelude.{◌≡◌, ◌<◌, length, option_map};
ghost use Rattle.std.specs.List.{list_all};
ghost use Rattle.st_rack.specs.Calls.{size_in};
ghost use Rattle.st_waking.specs.Readies.{fits_in, is_sized};

use st_rack::Rack;
use st_table::Table;

fn is_sized(sectors: u64, known: Option<u64>) -> bool
    ensures { result ≡ is_sized sectors known }
{
    match known {
        Some(known) => known == sectors,
        None => false,
    }
}

/// Whether the engine knows each device of the rack with the sectors that it has there.
pub(crate) fn all_fit<R: Rack>(table: &Table, rack: &R) -> bool
    ensures { result ≡ list_all (fits_in table.now.devices) (R.devs rack.now) }
{
    for index in 0..rack.devices() {
        let dev = rack.path_of(index);
        let sectors = rack.sectors(dev).unwrap_or(0);
        if !is_sized(sectors, table.sectors(dev)) {
            return false;
        }
    }
    true
}

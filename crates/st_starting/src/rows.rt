ghost use Rattle.std.specs.Prelude.{◌≡◌, map, IsTrue, ◌↔◌};
ghost use Rattle.st_rack.specs.Calls.{size_in};
ghost use Rattle.st_image.specs.Kept.{as_pair};
ghost use Rattle.st_starting.specs.Found.{sized};

use st_rack::Rack;
use st_units::{DevList, DevPath, DevRow, DevRows};

/// Whether these rows are just these devices, with the sectors that the rack gives them.
pub fn are_rows<R: Rack>(rack: &R, rows: &DevRows, devs: &DevList) -> bool
    ensures { IsTrue result ↔ (map as_pair rows.now ≡ sized (R.devs rack.now) devs.now) }
{
    if rows.len() != devs.len() {
        return false;
    }
    for i in 0..rows.len() {
        if !is_row(rack, rows.at(i), devs.at(i)) {
            return false;
        }
    }
    true
}

/// Whether the row is this device, with the sectors that the rack gives it.
fn is_row<R: Rack>(rack: &R, row: &DevRow, dev: &DevPath) -> bool
    ensures { IsTrue result ↔ (as_pair row.now ≡ (dev.now, size_in (R.devs rack.now) dev.now)) }
{
    row.path.bytes() == dev.bytes() && row.sectors == rack.sectors(dev).unwrap_or(0)
}

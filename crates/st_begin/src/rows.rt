ghost use Rattle.std.specs.Prelude.{◌≡◌, ◌<◌, length, map, slice_get, option_map, Some, IfOk};
ghost use Rattle.st_image.specs.Survivors.{row_of};

use st_rack::Rack;
use st_units::{DevRow, DevRows, NoMemory, Tier};
use std::alloc::Global;

/// The devices of the rack, in order.
pub(crate) fn rows_of<R: Rack>(alloc: Global, rack: &R) -> Result<DevRows, NoMemory>
    ensures { IfOk result (λ rows. rows ≡ map row_of (R.devs rack.now)) }
{
    let mut rows = DevRows::make(alloc);
    for i in 0..rack.devices() {
        let row = row_at(rack, i)?;
        match rows.push(row) {
            Ok(()) => {}
            Err((_, NoMemory)) => return Err(NoMemory),
        }
    }
    Ok(rows)
}

/// One of its devices.
fn row_at<R: Rack>(rack: &R, i: usize) -> Result<DevRow, NoMemory>
    requires { i < length (R.devs rack.now) }
    ensures { IfOk result (λ row. option_map row_of (slice_get (R.devs rack.now) i) ≡ Some row) }
{
    let path = rack.path_of(i);
    let sectors = match rack.sectors(path) {
        Some(sectors) => sectors,
        None => unreachable!(),
    };
    Ok(DevRow {
        path: path.copy()?,
        tier: Tier::DataTier,
        sectors,
    })
}

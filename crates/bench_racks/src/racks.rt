// Calls of a rack, one behind the other, from the start again at the end of the device.
ghost use Rattle.std.specs.Prelude.{◌≡◌, ◌+◌, ◌*◌, ◌%◌, ◌<◌, ◌≤◌, length};
ghost use Rattle.st_rack.specs.Calls.{Has};

use st_rack::Rack;
use st_units::DevPath;

// Where so many sectors fit: there, or else at the start.
fn place(sector: u64, step: u64, sectors: u64) -> u64
    requires within { sector ≤ sectors }
    requires step { step ≤ sectors }
    ensures { result + step ≤ sectors }
{
    if sectors - sector < step { 0 } else { sector }
}

/// Writes so often. False where a call failed.
pub fn write_often<R: Rack>(
    rack: &mut R,
    dev: &DevPath,
    sectors: u64,
    bytes: &[u8],
    times: u64,
) -> bool
    requires there { Has (R.devs rack.old) dev.now sectors }
    requires whole { length bytes.now % 512 ≡ 0 }
    requires some { 0 < length bytes.now }
    requires fits { length bytes.now ≤ 512 * sectors }
    ensures { R.devs rack.new ≡ R.devs rack.old }
{
    let step = bytes.len() as u64 / 512;
    let mut sector = 0;
    for _ in 0..times {
        sector = place(sector, step, sectors);
        if rack.write(dev, sector, bytes).is_err() {
            return false;
        }
        sector += step;
    }
    true
}

/// Reads so often. False where a call failed.
pub fn read_often<R: Rack>(
    rack: &mut R,
    dev: &DevPath,
    sectors: u64,
    buf: &mut [u8],
    times: u64,
) -> bool
    requires there { Has (R.devs rack.old) dev.now sectors }
    requires whole { length buf.old % 512 ≡ 0 }
    requires some { 0 < length buf.old }
    requires fits { length buf.old ≤ 512 * sectors }
    ensures { R.devs rack.new ≡ R.devs rack.old }
{
    let step = buf.len() as u64 / 512;
    let mut sector = 0;
    for _ in 0..times {
        sector = place(sector, step, sectors);
        if rack.read(dev, sector, buf).is_err() {
            return false;
        }
        sector += step;
    }
    true
}

ghost use Rattle.std.specs.Prelude.{◌≡◌, ◌≤◌, IfOk};
ghost use Rattle.st_units.specs.Causes.{Rose};
ghost use Rattle.st_rack.specs.Device.{cells, held};
ghost use Rattle.st_rack.specs.Calls.{Has};
ghost use Rattle.st_header.specs.Header.{header_of};
ghost use Rattle.st_looks.specs.Looked.{looked};

use crate::look::DevLook;
use st_header::read_header;
use st_image::pool_area;
use st_limits::MIN_DEVICE_SECTORS;
use st_rack::Rack;
use st_slots::{SlotFault, read_place};
use st_units::{DevPath, PoolSerial};
use std::alloc::Global;

/// What a device of so many sectors shows.
pub fn look_at<R: Rack>(
    alloc: Global,
    rack: &mut R,
    dev: &DevPath,
    sectors: u64,
) -> Result<DevLook, SlotFault>
    requires { Has (R.devs rack.old) dev.now sectors }
    ensures found { IfOk result (λ look. look ≡ looked (held (R.state_at rack.old (R.moment rack.old))) (dev.now, sectors)) }
    ensures cause { result ≡ Err SlotFault.Fault → Rose (R.faults rack.old) (R.faults rack.new) }
    ensures faults { R.faults rack.old ≤ R.faults rack.new }
    ensures devs { R.devs rack.new ≡ R.devs rack.old }
    ensures clock { R.moment rack.new ≡ R.moment rack.old }
    ensures states { R.state_at rack.new ≡ R.state_at rack.old }
    ensures spare { R.spare rack.new ≡ R.spare rack.old }
{
    let path = dev.copy()?;
    if sectors < MIN_DEVICE_SECTORS {
        return Ok(DevLook {
            path,
            sectors,
            header: None,
            even: None,
            odd: None,
        });
    }
    let header = header_on(rack, dev, sectors)?;
    let even = read_place(alloc, rack, dev, &pool_area(), 0)?;
    let odd = read_place(alloc, rack, dev, &pool_area(), 1)?;
    Ok(DevLook {
        path,
        sectors,
        header,
        even,
        odd,
    })
}

/// The serial in the header of a device that is large enough for a pool.
fn header_on<R: Rack>(
    rack: &mut R,
    dev: &DevPath,
    sectors: u64,
) -> Result<Option<PoolSerial>, SlotFault>
    requires has { Has (R.devs rack.old) dev.now sectors }
    requires large { 8192 ≤ sectors }
    ensures found { IfOk result (λ serial. serial ≡ header_of sectors (cells (R.state_at rack.old (R.moment rack.old) dev.now).holds 0 8192)) }
    ensures cause { result ≡ Err SlotFault.Fault → Rose (R.faults rack.old) (R.faults rack.new) }
    ensures faults { R.faults rack.old ≤ R.faults rack.new }
    ensures devs { R.devs rack.new ≡ R.devs rack.old }
    ensures clock { R.moment rack.new ≡ R.moment rack.old }
    ensures states { R.state_at rack.new ≡ R.state_at rack.old }
    ensures spare { R.spare rack.new ≡ R.spare rack.old }
{
    let mut area = [0; 8_192];
    rack.read(dev, 0, &mut area)?;
    Ok(read_header(&area, sectors))
}

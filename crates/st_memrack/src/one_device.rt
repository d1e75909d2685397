ghost use Rattle.std.specs.Prelude.{◌≡◌, length, vec_len, vec_capacity, ℕ};
ghost use Rattle.std.specs.List.{AllZip};
ghost use Rattle.st_rack.specs.Calls.{Rises, Has, IsWithin};
ghost use Rattle.st_shelf.specs.Shelf.{rows_of};
ghost use Rattle.st_sparse.specs.Sparse.{sparse_path, sparse_size};
ghost use Rattle.st_memrack.specs.One.{OneStep};
ghost use Rattle.st_memrack.specs.Ends.{ArmEnds, ReadEnds, WriteEnds, SyncEnds, CycleEnds};

use st_rack::DevFault;
use st_shelf::first_of;
use st_sparse::{Arm, Pick, Sparse, WriteFault};
use st_units::{DevPath, NoMemory};

/// Gives a device of the list one more arm.
pub fn arm_on(devices: &mut Vec<Sparse>, dev: &DevPath, arm: Arm) -> Result<(), NoMemory>
    requires order { Rises (rows_of sparse_path sparse_size devices.old.items) }
    requires there { (n : ℕ) × Has (rows_of sparse_path sparse_size devices.old.items) dev.now n }
    ensures one { OneStep sparse_path (ArmEnds arm result) dev.now devices.old.items devices.new.items }
    ensures len { vec_len devices.new ≡ vec_len devices.old }
    ensures capacity { vec_capacity devices.new ≡ vec_capacity devices.old }
{
    let i = first_of(devices.as_slice(), dev);
    devices[i].arm(arm)
}

/// Reads from a device of the list.
pub fn read_on(
    devices: &mut Vec<Sparse>,
    dev: &DevPath,
    sector: u64,
    buf: &mut [u8],
) -> Result<(), DevFault>
    requires order { Rises (rows_of sparse_path sparse_size devices.old.items) }
    requires within { IsWithin (rows_of sparse_path sparse_size devices.old.items) dev.now sector (length buf.old) }
    ensures one { OneStep sparse_path (ReadEnds sector buf.old buf.new result) dev.now devices.old.items devices.new.items }
    ensures len { vec_len devices.new ≡ vec_len devices.old }
    ensures capacity { vec_capacity devices.new ≡ vec_capacity devices.old }
{
    let i = first_of(devices.as_slice(), dev);
    devices[i].read(sector, buf)
}

/// Writes to a device of the list.
pub fn write_on(
    devices: &mut Vec<Sparse>,
    dev: &DevPath,
    sector: u64,
    bytes: &[u8],
    pick: Pick,
) -> Result<(), WriteFault>
    requires order { Rises (rows_of sparse_path sparse_size devices.old.items) }
    requires within { IsWithin (rows_of sparse_path sparse_size devices.old.items) dev.now sector (length bytes.now) }
    ensures one { OneStep sparse_path (WriteEnds sector bytes.now pick result) dev.now devices.old.items devices.new.items }
    ensures len { vec_len devices.new ≡ vec_len devices.old }
    ensures capacity { vec_capacity devices.new ≡ vec_capacity devices.old }
{
    let i = first_of(devices.as_slice(), dev);
    devices[i].write(sector, bytes, pick)
}

/// Syncs a device of the list.
pub fn sync_on(devices: &mut Vec<Sparse>, dev: &DevPath) -> Result<(), DevFault>
    requires order { Rises (rows_of sparse_path sparse_size devices.old.items) }
    requires there { (n : ℕ) × Has (rows_of sparse_path sparse_size devices.old.items) dev.now n }
    ensures one { OneStep sparse_path (SyncEnds result) dev.now devices.old.items devices.new.items }
    ensures len { vec_len devices.new ≡ vec_len devices.old }
    ensures capacity { vec_capacity devices.new ≡ vec_capacity devices.old }
{
    let i = first_of(devices.as_slice(), dev);
    devices[i].sync()
}

/// Cuts the power of each device.
pub fn cycle_all(devices: &mut Vec<Sparse>, pick: Pick)
    ensures each { AllZip (CycleEnds pick) devices.old.items devices.new.items }
    ensures len { vec_len devices.new ≡ vec_len devices.old }
    ensures capacity { vec_capacity devices.new ≡ vec_capacity devices.old }
{
    for i in 0..devices.len() {
        devices[i].cycle(pick);
    }
}

ghost use Rattle.std.specs.Prelude.{◌≡◌, ◌≢◌, ◌+◌, ◌*◌, ◌^◌, ◌<◌, ◌≤◌, ◌-◌, min, true, false, ℕ, List, length, Option, Some, None, IsNone, IfOk, OnOk, OnErr, slice_get};
ghost use Rattle.std.specs.Str.{bytes_eq};
ghost use Rattle.std.specs.List.{IsDistinct};
ghost use Rattle.st_rack.specs.Device.{Path, DevState, State, cells, Touched, Written, Settling, Synced};
ghost use Rattle.st_rack.specs.Moments.{Goes, OnDevice, AllCut};
ghost use Rattle.st_rack.specs.Calls.{Devices, Rises, Has, sectors_of, size_in, names, IsWithin};
ghost use Rattle.st_units.specs.Causes.{HasCause, Rose};
ghost use Rattle.st_rack.specs.Parts.{IsSame, Splits, AreApart, Joins};

use st_units::{DevList, DevPath, NoMemory};
use std::alloc::Global;

/// A device failed.
#[derive(Clone, Copy, Debug, PartialEq, Eq)]
pub struct DevFault;

/// One set of devices with one clock, one count of faults, and a count of reads for each device. A sector has 512 bytes.
///
/// What a crash may leave is told by the states that the rack has had: `MayLeave (state_at r k)` says what a crash at the
/// moment `k` may have left, so with `k = moment r` it is a crash now, and `LeftSince` is a crash at some moment from one on.
pub trait Rack: Sized {
    /// The devices and their sectors, in order.
    ghost devs: { Self → Devices };

    /// The clock, a number that doesn't fall.
    ghost moment: { Self → ℕ };

    /// Each device at each moment up to now.
    ghost state_at: { Self → ℕ → State };

    /// How often a device has failed. The count stops at 2^64 - 1, and at that number each failure counts as a rise.
    ghost faults: { Self → ℕ };

    /// How often each device was read, a count that stops in the same way.
    ghost reads: { Self → Path → ℕ };

    /// For so many more devices `absorb` has room.
    ghost spare: { Self → ℕ };

    /// The number of devices.
    fn devices(&self) -> usize
        ensures count { result ≡ length (devs self.now) }
        ensures rises { Rises (devs self.now) };

    /// The path of a device; paths rise in byte order by index.
    fn path_of(&self, index: usize) -> &DevPath
        requires { index < length (devs self.now) }
        ensures at { slice_get (devs self.now) index ≡ Some (result.now, size_in (devs self.now) result.now) }
        ensures has { Has (devs self.now) result.now (size_in (devs self.now) result.now) };

    /// The sectors of a device, None where the rack doesn't have it.
    fn sectors(&self, dev: &DevPath) -> Option<u64>
        ensures { result ≡ sectors_of (devs self.now) dev.now };

    /// Reads whole sectors, at least one. After a fault the buffer holds anything.
    fn read(&mut self, dev: &DevPath, sector: u64, buf: &mut [u8]) -> Result<(), DevFault>
        requires { IsWithin (devs self.old) dev.now sector (length buf.old) }
        ensures bytes { OnOk result (buf.new ≡ cells (state_at self.old (moment self.old) dev.now).holds (512 * sector) (length buf.old)) }
        ensures devs { devs self.new ≡ devs self.old }
        ensures clock { moment self.new ≡ moment self.old }
        ensures states { state_at self.new ≡ state_at self.old }
        ensures counted { Rose (reads self.old dev.now) (reads self.new dev.now) }
        ensures others { (p : Path) → p ≢ dev.now → reads self.new p ≡ reads self.old p }
        ensures spare { spare self.new ≡ spare self.old }
        ensures cause { HasCause (faults self.old) (faults self.new) result };

    /// Writes whole sectors, at least one. After a fault they hold anything; they are pending until the next successful sync.
    fn write(&mut self, dev: &DevPath, sector: u64, bytes: &[u8]) -> Result<(), DevFault>
        requires { IsWithin (devs self.old) dev.now sector (length bytes.now) }
        ensures written { OnOk result (Written (512 * sector) bytes.now (state_at self.new (moment self.new) dev.now)) }
        ensures touched { OnDevice dev.now (Touched (512 * sector) bytes.now) (state_at self.old (moment self.old)) (state_at self.new (moment self.new)) }
        ensures time { Goes moment state_at (OnDevice dev.now (Touched (512 * sector) bytes.now)) self.old self.new }
        ensures devs { devs self.new ≡ devs self.old }
        ensures reads { reads self.new ≡ reads self.old }
        ensures spare { spare self.new ≡ spare self.old }
        ensures cause { HasCause (faults self.old) (faults self.new) result };

    /// Settles what a device holds: a crash after an Ok leaves what a read gives. After a fault nothing more is sure than before.
    fn sync(&mut self, dev: &DevPath) -> Result<(), DevFault>
        requires { (n : ℕ) × Has (devs self.old) dev.now n }
        ensures synced { OnOk result (Synced (state_at self.old (moment self.old) dev.now) (state_at self.new (moment self.new) dev.now)) }
        ensures unsynced { OnErr result (state_at self.new (moment self.new) dev.now ≡ state_at self.old (moment self.old) dev.now) }
        ensures time { Goes moment state_at (OnDevice dev.now Settling) self.old self.new }
        ensures devs { devs self.new ≡ devs self.old }
        ensures reads { reads self.new ≡ reads self.old }
        ensures spare { spare self.new ≡ spare self.old }
        ensures cause { HasCause (faults self.old) (faults self.new) result };

    /// Makes at least so many spare places.
    fn reserve(&mut self, devices: usize) -> Result<(), NoMemory>
        ensures ok { OnOk result (devices ≤ spare self.new) }
        ensures no_fewer { spare self.old ≤ spare self.new }
        ensures same { IsSame devs moment state_at reads self.old self.new }
        ensures faults { faults self.new ≡ faults self.old };

    /// Takes distinct devices out, as a rack of their own with no faults so far. Their places here are spare then.
    fn split_off(&mut self, alloc: Global, list: &DevList) -> Result<Self, NoMemory>
        requires distinct { IsDistinct bytes_eq list.now }
        requires there { (p : Path) → names list.now p ≡ true → (n : ℕ) × Has (devs self.old) p n }
        ensures parts { IfOk result (λ part. Splits devs moment state_at list.now self.old self.new part) }
        ensures places { IfOk result (λ part. spare self.old + length (devs part) ≤ spare self.new) }
        ensures reads { IfOk result (λ part. (p : Path) → names list.now p ≡ false → reads self.new p ≡ reads self.old p) }
        ensures reads_gone { IfOk result (λ part. (p : Path) → names list.now p ≡ true → reads part p ≡ reads self.old p) }
        ensures faults_gone { IfOk result (λ part. faults part ≡ 0) }
        ensures refused { OnErr result (IsSame devs moment state_at reads self.old self.new) }
        ensures no_fewer { spare self.old ≤ spare self.new }
        ensures faults { faults self.new ≡ faults self.old };

    /// Takes another rack's devices in, which this one doesn't have, into its spare places; it takes no memory.
    fn absorb(&mut self, other: Self)
        requires apart { AreApart devs self.old other }
        requires room { length (devs other) ≤ spare self.old }
        ensures joined { Joins devs moment state_at self.old other self.new }
        ensures places { spare self.old ≤ spare self.new + length (devs other) }
        ensures reads { (p : Path) → IsNone (sectors_of (devs other) p) → reads self.new p ≡ reads self.old p }
        ensures reads_others { (p : Path) (n : ℕ) → Has (devs other) p n → reads self.new p ≡ reads other p }
        ensures faults { faults self.new ≡ min (faults self.old + faults other) (2 ^ 64 - 1) };

    /// Cuts the power and turns it on again: each device holds one of the contents that a crash now may leave, and works.
    fn cycle(&mut self)
        ensures cut { AllCut (devs self.old) (state_at self.old (moment self.old)) (state_at self.new (moment self.new)) }
        ensures time { Goes moment state_at (AllCut (devs self.old)) self.old self.new }
        ensures devs { devs self.new ≡ devs self.old }
        ensures reads { reads self.new ≡ reads self.old }
        ensures spare { spare self.new ≡ spare self.old }
        ensures faults { faults self.new ≡ faults self.old };
}

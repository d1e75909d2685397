ghost use Rattle.std.specs.Prelude.{◌≡◌, ◌≢◌, ◌*◌, ◌<◌, length, OnOk};
ghost use Rattle.st_units.specs.Causes.{HasCause, Rose};
ghost use Rattle.st_rack.specs.Device.{Path, held};
ghost use Rattle.st_rack.specs.Calls.{IsWithin};
ghost use Rattle.st_ranges.specs.Ranges.{bytes_in};
ghost use Rattle.st_cachetier.specs.Tier.{InRack, IsCopy, copy_range, source};

use crate::tier::CacheTier;
use st_rack::{DevFault, Rack};
use st_units::DevPath;

impl CacheTier {
    /// Reads a cell of 128 sectors, from its copy where it is cached, else from its origin. It changes no list.
    pub fn read_block<R: Rack>(
        &self,
        rack: &mut R,
        cell: u64,
        dev: &DevPath,
        sector: u64,
        buf: &mut [u8],
    ) -> Result<(), DevFault>
        requires in_rack { InRack (R.devs rack.old) self.now.rows }
        requires origin { IsWithin (R.devs rack.old) dev.now sector 65536 }
        requires room { length buf.old ≡ 65536 }
        requires copy { IsCopy self.now cell (dev.now, 512 * sector, 65536) (held (R.state_at rack.old (R.moment rack.old))) }
        ensures bytes { OnOk result (buf.new ≡ bytes_in (held (R.state_at rack.old (R.moment rack.old))) (dev.now, 512 * sector, 65536)) }
        ensures devs { R.devs rack.new ≡ R.devs rack.old }
        ensures clock { R.moment rack.new ≡ R.moment rack.old }
        ensures states { R.state_at rack.new ≡ R.state_at rack.old }
        ensures spare { R.spare rack.new ≡ R.spare rack.old }
        ensures cause { HasCause (R.faults rack.old) (R.faults rack.new) result }

        // No device is read but the one that has the copy, or the origin's where there is none.
        ensures counted { Rose (R.reads rack.old (source self.now cell (dev.now, 512 * sector, 65536)).0) (R.reads rack.new (source self.now cell (dev.now, 512 * sector, 65536)).0) }
        ensures others { (p : Path) → p ≢ (source self.now cell (dev.now, 512 * sector, 65536)).0 → R.reads rack.new p ≡ R.reads rack.old p }
    {
        match self.peek(cell) {
            Some(place) => self.read_copy(rack, place, buf),
            None => rack.read(dev, sector, buf),
        }
    }

    /// Reads the copy at a place.
    fn read_copy<R: Rack>(&self, rack: &mut R, place: usize, buf: &mut [u8]) -> Result<(), DevFault>
        requires place { place < self.now.list.capacity }
        requires in_rack { InRack (R.devs rack.old) self.now.rows }
        requires room { length buf.old ≡ 65536 }
        ensures bytes { OnOk result (buf.new ≡ bytes_in (held (R.state_at rack.old (R.moment rack.old))) (copy_range self.now.rows place)) }
        ensures devs { R.devs rack.new ≡ R.devs rack.old }
        ensures clock { R.moment rack.new ≡ R.moment rack.old }
        ensures states { R.state_at rack.new ≡ R.state_at rack.old }
        ensures spare { R.spare rack.new ≡ R.spare rack.old }
        ensures cause { HasCause (R.faults rack.old) (R.faults rack.new) result }
        ensures counted { Rose (R.reads rack.old (copy_range self.now.rows place).0) (R.reads rack.new (copy_range self.now.rows place).0) }
        ensures others { (p : Path) → p ≢ (copy_range self.now.rows place).0 → R.reads rack.new p ≡ R.reads rack.old p }
    {
        let (number, sector) = self.place(place);
        let row = self.row(number);
        rack.read(&row.path, sector, buf)
    }
}

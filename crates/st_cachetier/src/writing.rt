ghost use Rattle.std.specs.Prelude.{◌≡◌, ◌≢◌, ℕ, ◌+◌, ◌*◌, ◌%◌, ◌^◌, ◌<◌, ◌≤◌, ◌∷◌, length, Some, None, IfSome, OnOk, OnErr};
ghost use Rattle.st_units.specs.Causes.{HasCause};
ghost use Rattle.st_cachemap.specs.Cached.{place_in};
ghost use Rattle.st_rack.specs.Calls.{IsWithin};
ghost use Rattle.st_rack.specs.Device.{IsSure, Path, held};
ghost use Rattle.st_rack.specs.Moments.{Goes};
ghost use Rattle.st_rack.specs.Steps.{put_on};
ghost use Rattle.st_ranges.specs.Ranges.{AreApart, Range, SettledOutside, Works, bytes_in};
ghost use Rattle.st_cachetier.specs.Tier.{AreCacheRows, InRack, IsCopy, IsElsewhere, IsPromoted, IsTouched, cache_ranges, capacity_of, copy_range};

use crate::tier::CacheTier;
use st_cachemap::Touch;
use st_rack::{DevFault, Rack};
use st_ranges::{write_bytes, write_synced};
use st_units::DevPath;

impl CacheTier {
    /// Takes note of a read of the cell, and where it wasn't cached writes `buf`, which is the cell's content, to its place. The list
    /// has the cell then, also after a fault.
    pub fn fill<R: Rack>(&mut self, rack: &mut R, cell: u64, buf: &[u8]) -> Result<(), DevFault>
        requires in_rack { InRack (R.devs rack.old) self.old.rows }
        requires room { length buf.now ≡ 65536 }
        ensures devs { R.devs rack.new ≡ R.devs rack.old }
        ensures reads { R.reads rack.new ≡ R.reads rack.old }
        ensures spare { R.spare rack.new ≡ R.spare rack.old }
        ensures cause { HasCause (R.faults rack.old) (R.faults rack.new) result }
        ensures list { IsTouched cell self.old self.new }

        // A hit writes nothing, and at each moment of a miss nothing but the tier's places is touched.
        ensures missed { OnErr result (place_in self.old.list.entries cell ≡ None) }
        ensures hit { IfSome (place_in self.old.list.entries cell) (λ _. (R.moment rack.new ≡ R.moment rack.old) × (R.state_at rack.new ≡ R.state_at rack.old)) }
        ensures time { Goes R.moment R.state_at (Works (cache_ranges self.old.rows)) rack.old rack.new }

        // Copies go on being what their origins are.
        ensures copies { OnOk result ((c : ℕ) (r : Range) → IsElsewhere self.old.rows r.0 → IsCopy self.old c r (held (R.state_at rack.old (R.moment rack.old)))
            → (c ≡ cell → buf.now ≡ bytes_in (held (R.state_at rack.old (R.moment rack.old))) r) → IsCopy self.new c r (held (R.state_at rack.new (R.moment rack.new)))) }
    {
        match self.touch(cell) {
            Touch::Hit(_) => Ok(()),
            Touch::Miss(place, _) => self.put_copy(rack, place, 0, buf),
        }
    }

    /// Writes these bytes `offset` sectors into the cell on its origin, and syncs it. Where the cell is cached, it writes them to its
    /// place too and moves it to the front.
    pub fn write_through<R: Rack>(
        &mut self,
        rack: &mut R,
        cell: u64,
        dev: &DevPath,
        sector: u64,
        offset: u64,
        bytes: &[u8],
    ) -> Result<(), DevFault>
        requires in_rack { InRack (R.devs rack.old) self.old.rows }
        requires origin { IsWithin (R.devs rack.old) dev.now sector 65536 }
        requires end { sector + 128 < 2 ^ 64 }
        requires elsewhere { IsElsewhere self.old.rows dev.now }
        requires whole { length bytes.now % 512 ≡ 0 }
        requires some { 0 < length bytes.now }
        requires inside { 512 * offset + length bytes.now ≤ 65536 }
        ensures devs { R.devs rack.new ≡ R.devs rack.old }
        ensures reads { R.reads rack.new ≡ R.reads rack.old }
        ensures spare { R.spare rack.new ≡ R.spare rack.old }
        ensures cause { HasCause (R.faults rack.old) (R.faults rack.new) result }
        ensures list { OnOk result (IsPromoted cell self.old self.new) }
        ensures err { OnErr result (self.new ≡ self.old) }

        // At each moment nothing but these bytes of the origin and the tier's places is touched.
        ensures time { Goes R.moment R.state_at (Works ((dev.now, 512 * (sector + offset), length bytes.now) ∷ cache_ranges self.old.rows)) rack.old rack.new }
        ensures held { OnOk result ((p : Path) → IsElsewhere self.old.rows p
            → held (R.state_at rack.new (R.moment rack.new)) p ≡ put_on dev.now (512 * (sector + offset)) bytes.now (held (R.state_at rack.old (R.moment rack.old))) p) }
        ensures sure { OnOk result (IsSure (R.state_at rack.new (R.moment rack.new) dev.now)) }
        ensures settled { OnOk result (SettledOutside (cache_ranges self.old.rows) (R.state_at rack.old (R.moment rack.old)) (R.state_at rack.new (R.moment rack.new))) }

        // Copies go on being what their origins are: the cell's, and those of cells that lie elsewhere.
        ensures own { OnOk result (IsCopy self.old cell (dev.now, 512 * sector, 65536) (held (R.state_at rack.old (R.moment rack.old)))
            → IsCopy self.new cell (dev.now, 512 * sector, 65536) (held (R.state_at rack.new (R.moment rack.new)))) }
        ensures others { OnOk result ((c : ℕ) (r : Range) → c ≢ cell → IsElsewhere self.old.rows r.0 → AreApart (dev.now, 512 * (sector + offset), length bytes.now) r
            → IsCopy self.old c r (held (R.state_at rack.old (R.moment rack.old))) → IsCopy self.new c r (held (R.state_at rack.new (R.moment rack.new)))) }
    {
        write_synced(rack, dev, sector + offset, bytes)?;
        self.update(rack, cell, offset, bytes)
    }

    /// Writes these bytes `offset` sectors into the copy of a cell that is cached, and moves it to the front.
    fn update<R: Rack>(
        &mut self,
        rack: &mut R,
        cell: u64,
        offset: u64,
        bytes: &[u8],
    ) -> Result<(), DevFault>
        requires in_rack { InRack (R.devs rack.old) self.old.rows }
        requires whole { length bytes.now % 512 ≡ 0 }
        requires some { 0 < length bytes.now }
        requires inside { 512 * offset + length bytes.now ≤ 65536 }
        ensures devs { R.devs rack.new ≡ R.devs rack.old }
        ensures reads { R.reads rack.new ≡ R.reads rack.old }
        ensures spare { R.spare rack.new ≡ R.spare rack.old }
        ensures cause { HasCause (R.faults rack.old) (R.faults rack.new) result }
        ensures list { OnOk result (IsPromoted cell self.old self.new) }
        ensures places { (c : ℕ) → place_in self.new.list.entries c ≡ place_in self.old.list.entries c }
        ensures err { OnErr result (self.new ≡ self.old) }
        ensures time { Goes R.moment R.state_at (Works (cache_ranges self.old.rows)) rack.old rack.new }
        ensures cached { OnOk result (IfSome (place_in self.old.list.entries cell) (λ place.
            held (R.state_at rack.new (R.moment rack.new)) ≡ put_on (copy_range self.old.rows place).0 ((copy_range self.old.rows place).1 + 512 * offset) bytes.now (held (R.state_at rack.old (R.moment rack.old))))) }
        ensures absent { place_in self.old.list.entries cell ≡ None → R.state_at rack.new (R.moment rack.new) ≡ R.state_at rack.old (R.moment rack.old) }
        ensures apart { (c p q : ℕ) → c ≢ cell → place_in self.old.list.entries c ≡ Some p → place_in self.old.list.entries cell ≡ Some q → AreApart (copy_range self.old.rows q) (copy_range self.old.rows p) }
        ensures below { (c p : ℕ) → place_in self.old.list.entries c ≡ Some p → p < capacity_of self.old.rows }
    {
        match self.peek(cell) {
            None => Ok(()),
            Some(place) => {
                self.put_copy(rack, place, offset, bytes)?;
                self.promote(cell);
                Ok(())
            }
        }
    }

    /// Writes these bytes `offset` sectors into the copy at a place.
    fn put_copy<R: Rack>(
        &self,
        rack: &mut R,
        place: usize,
        offset: u64,
        bytes: &[u8],
    ) -> Result<(), DevFault>
        requires place { place < self.now.list.capacity }
        requires in_rack { InRack (R.devs rack.old) self.now.rows }
        requires whole { length bytes.now % 512 ≡ 0 }
        requires some { 0 < length bytes.now }
        requires inside { 512 * offset + length bytes.now ≤ 65536 }
        ensures devs { R.devs rack.new ≡ R.devs rack.old }
        ensures reads { R.reads rack.new ≡ R.reads rack.old }
        ensures spare { R.spare rack.new ≡ R.spare rack.old }
        ensures cause { HasCause (R.faults rack.old) (R.faults rack.new) result }
        ensures time { Goes R.moment R.state_at (Works (cache_ranges self.now.rows)) rack.old rack.new }
        ensures held { OnOk result (held (R.state_at rack.new (R.moment rack.new))
            ≡ put_on (copy_range self.now.rows place).0 ((copy_range self.now.rows place).1 + 512 * offset) bytes.now (held (R.state_at rack.old (R.moment rack.old)))) }
        ensures valid { AreCacheRows self.now.rows }
    {
        let (number, sector) = self.place(place);
        let row = self.row(number);
        write_bytes(rack, &row.path, sector + offset, bytes)
    }
}

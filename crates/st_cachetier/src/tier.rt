ghost use Rattle.std.specs.Prelude.{◌≡◌, ℕ, ◌<◌, ◌++◌, true, length, take, slice_get, Some, MatchOption, IfOk, OnOk, OnErr};
ghost use Rattle.st_limits.specs.Cache.{has};
ghost use Rattle.st_cachemap.specs.Cached.{IsCached, IsTouch, cells_of, fronted_at, place_in, touch_place, without_cell};
ghost use Rattle.st_linear.specs.Places.{place_at};
ghost use Rattle.st_cachetier.specs.Tier.{AreCacheRows, IsPromoted, IsTouched, capacity_of, copy_range, empty_tier, row_blocks};

use crate::making::{capacity, table_of};
use st_cachemap::{CacheMap, Touch};
use st_linear::LinearTable;
use st_units::{DevRow, DevRows, NoMemory};
use std::alloc::Global;
use std::marker::Model;

/// The cache devices of a pool and the cells that are cached there, seen by contracts as the rows of the devices and the cache list
/// with the place of each copy.
#[derive(Drop)]
pub struct CacheTier {
    rows: DevRows,
    /// The blocks of the devices, in order.
    table: LinearTable,
    map: CacheMap,
}

impl Model for CacheTier {
    ghost use Rattle.std.specs.Prelude.{◌≡◌};
    ghost use Rattle.st_cachetier.specs.Tier.{Caching, AreCacheRows, row_blocks, capacity_of};

    ghost Value = { Caching };

    ghost view = { λ t. record { rows = t.rows; list = t.map } };

    ghost invariant = { λ t. AreCacheRows t.rows × (t.table ≡ row_blocks t.rows) × (t.map.capacity ≡ capacity_of t.rows) };
}

impl CacheTier {
    /// The tier of these devices, with nothing cached.
    pub fn make(alloc: Global, devs: &DevRows) -> Result<CacheTier, NoMemory>
        requires { AreCacheRows devs.now }
        ensures { IfOk result (λ tier. tier ≡ empty_tier devs.now) }
    {
        let rows = devs.copy(alloc)?;
        let table = table_of(alloc, rows.items())?;
        let map = CacheMap::make(alloc, capacity(rows.items()))?;
        Ok(CacheTier { rows, table, map })
    }

    /// Puts these devices behind those of the tier. What is cached stays.
    pub fn add_devs(&mut self, alloc: Global, devs: &DevRows) -> Result<(), NoMemory>
        requires { AreCacheRows (self.old.rows ++ devs.now) }
        ensures ok { OnOk result (self.new ≡ record { rows = self.old.rows ++ devs.now; list = record self.old.list { capacity = capacity_of (self.old.rows ++ devs.now) } }) }
        ensures err { OnErr result (self.new ≡ self.old) }

        // Copies stay where they are.
        ensures places { OnOk result ((place : ℕ) → place < self.old.list.capacity → copy_range self.new.rows place ≡ copy_range self.old.rows place) }
    {
        let mut rows = self.rows.copy(alloc)?;
        rows.append(devs.copy(alloc)?)?;
        let table = table_of(alloc, rows.items())?;
        self.map.grow(alloc, capacity(rows.items()))?;
        self.rows = rows;
        self.table = table;
        Ok(())
    }

    /// The cache list.
    pub fn map(&self) -> &CacheMap
        ensures { result.now ≡ self.now.list }
    {
        &self.map
    }

    /// The devices.
    pub fn devs(&self) -> &DevRows
        ensures rows { result.now ≡ self.now.rows }
        ensures valid { AreCacheRows self.now.rows }
        ensures capacity { self.now.list.capacity ≡ capacity_of self.now.rows }
    {
        &self.rows
    }

    /// Takes a cell out of the list, where it stands there.
    pub fn drop_cell(&mut self, cell: u64)
        ensures { self.new ≡ record self.old { list = record self.old.list { entries = without_cell cell self.old.list.entries } } }
    {
        self.map.drop_cell(cell);
    }

    /// Empties the list, and sets its counts to 0.
    pub fn clear(&mut self)
        ensures { self.new ≡ empty_tier self.old.rows }
    {
        self.map.clear();
    }

    /// The same tier once more, with each copy at its place.
    pub fn copy(&self, alloc: Global) -> Result<CacheTier, NoMemory>
        ensures { IfOk result (λ copy. copy ≡ self.now) }
    {
        Ok(CacheTier {
            rows: self.rows.copy(alloc)?,
            table: self.table.copy()?,
            map: self.map.copy()?,
        })
    }

    /// The place of a cell's copy. Nothing changes.
    pub(crate) fn peek(&self, cell: u64) -> Option<usize>
        ensures place { result ≡ place_in self.now.list.entries cell }
        ensures cached { IsCached self.now.list }
        ensures full { self.now.list.capacity ≡ capacity_of self.now.rows }
        ensures valid { AreCacheRows self.now.rows }
    {
        self.map.peek(cell)
    }

    /// Takes note of a read of the cell, which gets a place where it had none.
    pub(crate) fn touch(&mut self, cell: u64) -> Touch
        ensures answer { IsTouch self.old.list cell result }
        ensures entries { self.new.list.entries ≡ take self.old.list.capacity (fronted_at cell (touch_place result) self.old.list.entries) }
        ensures list { IsTouched cell self.old self.new }
        ensures cached { IsCached self.new.list }
        ensures full { self.old.list.capacity ≡ capacity_of self.old.rows }
        ensures valid { AreCacheRows self.old.rows }
    {
        self.map.touch(cell)
    }

    /// Moves a cell that is cached to the front.
    pub(crate) fn promote(&mut self, cell: u64)
        requires { has cell (cells_of self.old.list) ≡ true }
        ensures list { IsPromoted cell self.old self.new }
        ensures entries { MatchOption (place_in self.old.list.entries cell) (Unit {0}) (λ place. self.new.list.entries ≡ fronted_at cell place self.old.list.entries) }
    {
        self.map.promote(cell);
    }

    /// The row of a device.
    pub(crate) fn row(&self, number: usize) -> &DevRow
        requires { number < length self.now.rows }
        ensures { slice_get self.now.rows number ≡ Some result.now }
    {
        self.rows.at(number)
    }

    /// The number of the device on which a copy lies, and its first sector there.
    pub(crate) fn place(&self, place: usize) -> (usize, u64)
        requires { place < self.now.list.capacity }
        ensures at { place_at (row_blocks self.now.rows) place ≡ Some result }
        ensures device { result.0 < length self.now.rows }
        ensures full { self.now.list.capacity ≡ capacity_of self.now.rows }
        ensures valid { AreCacheRows self.now.rows }
    {
        let (dev, sector) = self.table.place(place as u64);
        (usize::from(dev), sector)
    }
}

ghost use Rattle.std.specs.Prelude.{◌≡◌, ◌≢◌, ◌+◌, ◌-◌, ◌^◌, ◌<◌, ◌≤◌, [], length, option_map, slice_get, count_by, Some, None, Err, IfOk, IfErr, OnErr, OnOk, ℕ, ◌++◌, map};
ghost use Rattle.std.specs.List.{All};
ghost use Rattle.st_limits.specs.declared.TheConstants.{MAX_MAPPINGS};
ghost use Rattle.st_thinmap.specs.declared.fault.MapFault.TheVariants.{MappingFull};
ghost use Rattle.st_thinmap.specs.Order.{mapping_at, put};
ghost use Rattle.st_thinmap.specs.inner.Tied.{lies_at};
ghost use Rattle.st_thinmap.specs.Thin.{AgreesWith, Fits, IsThin, of_fs, fresh_mapping, gone_with, used, with_fresh, with_fs, without_fs};

use crate::copies::copy_rows;
use crate::dropped::{lower_run, push_unused};
use crate::fault::MapFault;
use crate::mapping::Mapping;
use crate::order::{own_rows, run_of};
use crate::plan::{Fresh, Plan};
use crate::rows::{find_row, put_row, remove_rows};
use crate::uses::{Use, add_use, begin, count_of, gap, lower_old};
use st_limits::MAX_MAPPINGS;
use st_units::{ItemList, NoMemory};
use std::alloc::{AllocError, Global};
use std::marker::Model;

/// Numbers of cells.
pub type CellList = ItemList<u64>;

/// Which cell each block of each filesystem is mapped to, and where the cell lies; contracts see the mappings in order,
/// the number of the next fresh cell, and how many mappings more take no memory. A block that has no mapping has no cell.
#[derive(Drop)]
pub struct ThinMap {
    rows: Vec<Mapping>,
    // How often each place is used.
    uses: Vec<Use>,
    next: u64,
}

impl Model for ThinMap {
    ghost use Rattle.std.specs.Prelude.{◌-◌, min, vec_len};
    ghost use Rattle.std.specs.Vec.{vec_capacity};
    ghost use Rattle.st_thinmap.specs.inner.Tied.{lies_at};
    ghost use Rattle.st_thinmap.specs.Thin.{Thin, IsThin};
    ghost use Rattle.st_thinmap.specs.inner.Tied.{Tied};

    ghost Value = { Thin };

    ghost view = { λ s. record { rows = s.rows.items; next = s.next; room = min (vec_capacity s.rows - vec_len s.rows) (vec_capacity s.uses - vec_len s.uses) } };

    ghost invariant = { λ s. IsThin s.rows.items s.next × Tied s.uses.items s.rows.items };
}

impl ThinMap {
    /// The map without mappings.
    pub fn make(alloc: Global) -> ThinMap
        ensures rows { result.rows ≡ [] }
        ensures next { result.next ≡ 1 }
    {
        ThinMap {
            rows: Vec::new(alloc),
            uses: Vec::new(alloc),
            next: 1,
        }
    }

    /// The cell of a block, and where the cell lies.
    pub fn lookup(&self, fs: u64, block: u32) -> Option<(u64, u32)>
        ensures { result ≡ option_map (λ (m : Mapping). (m.cell, m.place)) (mapping_at fs block self.now.rows) }
    {
        match find_row(&self.rows, fs, block) {
            Some(mapping) => Some((mapping.cell, mapping.place)),
            None => None,
        }
    }

    /// How many blocks of all filesystems are mapped.
    pub fn mappings(&self) -> u64
        ensures count { result ≡ length self.now.rows }
        ensures valid { IsThin self.now.rows self.now.next }
    {
        self.rows.len() as u64
    }

    /// The number of the next fresh cell.
    pub fn next_cell(&self) -> u64
        ensures { result ≡ self.now.next }
    {
        self.next
    }

    /// Sets the number of the next fresh cell, which is above those of all cells.
    pub fn set_next(&mut self, cell: u64)
        requires { All (λ (m : Mapping). m.cell < cell) self.old.rows }
        ensures { self.new ≡ record self.old { next = cell } }
    {
        self.next = cell;
    }

    /// The mapping of that place in the order, in constant time.
    pub fn row(&self, i: usize) -> Mapping
        requires { i < length self.now.rows }
        ensures { slice_get self.now.rows i ≡ Some result }
    {
        self.rows[i]
    }

    /// The same map once more.
    pub fn copy(&self) -> Result<ThinMap, NoMemory>
        ensures rows { IfOk result (λ copy. copy.rows ≡ self.now.rows) }
        ensures next { IfOk result (λ copy. copy.next ≡ self.now.next) }
    {
        Ok(ThinMap {
            rows: self.rows.clone()?,
            uses: self.uses.clone()?,
            next: self.next,
        })
    }

    /// How many cells there are.
    pub fn used(&self) -> u64
        ensures count { result ≡ used self.now.rows }
        ensures few { result ≤ length self.now.rows }
        ensures valid { IsThin self.now.rows self.now.next }
    {
        self.uses.len() as u64
    }

    /// The mapping of a block.
    pub fn mapping(&self, fs: u64, block: u32) -> Option<Mapping>
        ensures mapping { result ≡ mapping_at fs block self.now.rows }
        ensures valid { IsThin self.now.rows self.now.next }
    {
        find_row(&self.rows, fs, block)
    }

    /// How many mappings have the place.
    pub fn uses_of(&self, place: u32) -> u32
        ensures { result ≡ count_by (lies_at place) self.now.rows }
    {
        count_of(&self.uses, place)
    }

    /// Makes room for so many mappings to fresh cells.
    pub fn reserve(&mut self, n: usize) -> Result<(), AllocError>
        ensures rows { self.new.rows ≡ self.old.rows }
        ensures next { self.new.next ≡ self.old.next }
        ensures room { OnOk result (n ≤ self.new.room) }
        ensures kept { self.old.room ≤ self.new.room }
    {
        self.rows.reserve(n)?;
        self.uses.reserve(n)?;
        Ok(())
    }

    /// The two least places that nothing has, in time in the logarithm of the number of cells.
    pub fn free_places(&self) -> (u32, u32)
        ensures first { All (λ (m : Mapping). m.place ≢ result.0) self.now.rows }
        ensures second { All (λ (m : Mapping). m.place ≢ result.1) self.now.rows }
        ensures rising { result.0 < result.1 }
        ensures low { result.0 ≤ used self.now.rows }
        ensures high { result.1 ≤ used self.now.rows + 1 }
        ensures valid { IsThin self.now.rows self.now.next }
    {
        let first = gap(&self.uses, 0, 0);
        let second = gap(&self.uses, first + 1, 1);
        (first as u32, second as u32)
    }

    /// How many blocks of the filesystem are mapped.
    pub fn mapped(&self, fs: u64) -> u64
        ensures count { result ≡ length (of_fs fs self.now.rows) }
        ensures few { result ≤ length self.now.rows }
    {
        let (start, end) = run_of(&self.rows, fs);
        (end - start) as u64
    }

    /// Adds a mapping of a record. Its cell is one of the map just where its place is the cell's.
    pub fn load(&mut self, mapping: Mapping) -> Result<(), NoMemory>
        requires few { length self.old.rows < MAX_MAPPINGS }
        requires block { mapping.block < 2 ^ 32 }
        requires unmapped { mapping_at mapping.fs mapping.block self.old.rows ≡ None }
        requires cell { mapping.cell < self.old.next }
        requires paired { All (AgreesWith mapping) self.old.rows }
        ensures ok { OnOk result (self.new.rows ≡ put mapping self.old.rows) }
        ensures err { OnErr result (self.new.rows ≡ self.old.rows) }
        ensures next { self.new.next ≡ self.old.next }
    {
        self.reserve(1)?;
        self.put_loaded(mapping);
        Ok(())
    }

    /// Adds a mapping, for which there is room.
    fn put_loaded(&mut self, mapping: Mapping)
        requires few { length self.old.rows < MAX_MAPPINGS }
        requires block { mapping.block < 2 ^ 32 }
        requires unmapped { mapping_at mapping.fs mapping.block self.old.rows ≡ None }
        requires cell { mapping.cell < self.old.next }
        requires paired { All (AgreesWith mapping) self.old.rows }
        requires room { 0 < self.old.room }
        ensures rows { self.new.rows ≡ put mapping self.old.rows }
        ensures next { self.new.next ≡ self.old.next }
    {
        let _ = put_row(&mut self.rows, mapping);
        add_use(&mut self.uses, mapping.place);
    }

    /// Maps the blocks of a new filesystem as those of `origin` are mapped. Its serial is above those of all filesystems that
    /// have mappings. It takes time in the number of the origin's mappings.
    pub fn snapshot(&mut self, origin: u64, fs: u64) -> Result<(), MapFault>
        requires above { All (λ (m : Mapping). m.fs < fs) self.old.rows }
        ensures full { MAX_MAPPINGS < length self.old.rows + length (of_fs origin self.old.rows) → result ≡ Err (MappingFull (length self.old.rows) (length (of_fs origin self.old.rows))) }
        ensures full_only { IfErr result (λ fault. (m n : ℕ) → fault ≡ MappingFull m n → MAX_MAPPINGS < length self.old.rows + length (of_fs origin self.old.rows)) }
        ensures ok { OnOk result (self.new.rows ≡ self.old.rows ++ map (with_fs fs) (of_fs origin self.old.rows)) }
        ensures err { OnErr result (self.new.rows ≡ self.old.rows) }
        ensures next { self.new.next ≡ self.old.next }
    {
        let mappings = self.mappings();
        let more = self.mapped(origin);
        if MAX_MAPPINGS < mappings + more {
            return Err(MapFault::MappingFull(mappings, more));
        }
        self.reserve(more as usize)?;
        self.put_copies(origin, fs);
        Ok(())
    }

    /// Adds the copies of a snapshot, for which there is room.
    fn put_copies(&mut self, origin: u64, fs: u64)
        requires above { All (λ (m : Mapping). m.fs < fs) self.old.rows }
        requires few { length self.old.rows + length (of_fs origin self.old.rows) ≤ MAX_MAPPINGS }
        requires room { length (of_fs origin self.old.rows) ≤ self.old.room }
        ensures rows { self.new.rows ≡ self.old.rows ++ map (with_fs fs) (of_fs origin self.old.rows) }
        ensures next { self.new.next ≡ self.old.next }
    {
        let (start, end) = run_of(&self.rows, origin);
        copy_rows(&mut self.rows, &mut self.uses, start, end, fs);
    }

    /// Takes out the mappings of a filesystem, and gives the cells that no other filesystem's mapping has, in the order of
    /// the blocks. It takes memory for these cells alone, before anything changes, and time in the number of all mappings.
    pub fn remove(&mut self, alloc: Global, fs: u64) -> Result<CellList, NoMemory>
        ensures rows { OnOk result (self.new.rows ≡ without_fs fs self.old.rows) }
        ensures gone { IfOk result (λ gone. gone ≡ gone_with fs self.old.rows) }
        ensures err { OnErr result (self.new.rows ≡ self.old.rows) }
        ensures next { self.new.next ≡ self.old.next }
    {
        let own = own_rows(&self.rows, fs);
        let mut gone = Vec::with_capacity(alloc, own.len())?;
        lower_run(&mut self.uses, own);
        push_unused(&mut gone, &self.uses, own);
        remove_rows(&mut self.rows, fs);
        Ok(CellList::of(gone))
    }

    /// Maps the blocks of a plan that this map gave to its fresh cells, with no other change of the map since. It takes no memory.
    /// Where a write goes to two blocks that shared one cell with each other alone, that cell is mapped no more then: `uses_of` of its
    /// place tells it.
    pub fn apply(&mut self, plan: Plan)
        requires fits { Fits plan.fs plan.fresh self.old.rows self.old.next }
        requires next { self.old.next < 2 ^ 63 - 1 }
        requires room { length plan.fresh ≤ self.old.room }
        ensures rows { self.new.rows ≡ with_fresh plan.fs plan.fresh self.old.rows }
        ensures next { self.new.next ≡ self.old.next + length plan.fresh }
        ensures room { self.old.room ≤ self.new.room + length plan.fresh }
    {
        for i in 0..plan.len() {
            self.put_fresh(plan.fs(), plan.at(i));
        }
    }

    /// Maps a block to a fresh cell.
    fn put_fresh(&mut self, fs: u64, fresh: Fresh)
        requires cell { fresh.cell ≡ self.old.next }
        requires next { self.old.next < 2 ^ 63 }
        requires block { fresh.block < 2 ^ 32 }
        requires free { All (λ (m : Mapping). m.place ≢ fresh.place) self.old.rows }
        requires few { length (put (fresh_mapping fs fresh) self.old.rows) ≤ MAX_MAPPINGS }
        requires room { 0 < self.old.room }
        ensures rows { self.new.rows ≡ put (fresh_mapping fs fresh) self.old.rows }
        ensures next { self.new.next ≡ self.old.next + 1 }
        ensures room { self.old.room ≤ self.new.room + 1 }
    {
        let mapping = Mapping {
            fs,
            block: fresh.block,
            cell: fresh.cell,
            place: fresh.place,
        };
        let old = put_row(&mut self.rows, mapping);
        lower_old(&mut self.uses, old);
        begin(&mut self.uses, fresh.place);
        self.next += 1;
    }
}

//! What a write takes: how many fresh cells it needs, and which they are.
ghost use Rattle.std.specs.Prelude.{◌≡◌, ℕ, ◌+◌, ◌-◌, ◌^◌, ◌<◌, ◌≤◌, [], ◌∷◌, length, map, nat_eq, nat_lt, ◌&&◌, is_none, filter, Err, OnOk, OnErr, IfOk, IfErr};
ghost use Rattle.std.specs.List.{All};
ghost use Rattle.std.specs.Map.{lookup};
ghost use Rattle.st_limits.specs.Sums as sums;
ghost use Rattle.st_limits.specs.declared.TheConstants.{MAX_MAPPINGS};
ghost use Rattle.st_thinmap.specs.declared.mapping.Mapping.{Mapping};
ghost use Rattle.st_thinmap.specs.declared.plan.Fresh.{Fresh};
ghost use Rattle.st_thinmap.specs.declared.fault.PlanFault.TheVariants.{MappingFull, NoSpace};
ghost use Rattle.st_thinmap.specs.Order.{mapping_at};
ghost use Rattle.st_thinmap.specs.inner.Tied.{one};
ghost use Rattle.st_thinmap.specs.Thin.{Fits, IsThin, cells_of, map_of, more, needed, touched, used};

use crate::fault::PlanFault;
use crate::map::ThinMap;
use crate::plan::{Fresh, Plan};
use st_limits::MAX_MAPPINGS;

impl ThinMap {
    /// The fresh cells for a write to the blocks from `first` to `last`, and room for them, so that `apply` takes no
    /// memory. MappingFull comes before NoSpace. The mappings stay as they are.
    pub fn plan_write(
        &mut self,
        fs: u64,
        first: u32,
        last: u32,
        allocated: u64,
    ) -> Result<Plan, PlanFault>
        requires order { first ≤ last }
        requires near { last ≤ first + 1 }
        requires next { self.old.next ≤ 2 ^ 49 }
        ensures full { MAX_MAPPINGS < length self.old.rows + more fs first last self.old.rows → result ≡ Err (MappingFull (length self.old.rows) (more fs first last self.old.rows)) }
        ensures full_only { IfErr result (λ fault. (m n : ℕ) → fault ≡ MappingFull m n → MAX_MAPPINGS < length self.old.rows + more fs first last self.old.rows) }
        ensures no_space { length self.old.rows + more fs first last self.old.rows ≤ MAX_MAPPINGS → allocated - used self.old.rows < needed fs first last self.old.rows → result ≡ Err (NoSpace (allocated - used self.old.rows) (needed fs first last self.old.rows)) }
        ensures no_space_only { IfErr result (λ fault. (free n : ℕ) → fault ≡ NoSpace free n → allocated - used self.old.rows < needed fs first last self.old.rows) }
        ensures fs { IfOk result (λ plan. plan.fs ≡ fs) }
        ensures blocks { IfOk result (λ plan. map (λ (x : Fresh). x.block) plan.fresh ≡ filter (sums.takes_cell (map_of fs self.old.rows) (cells_of self.old.rows)) (touched first last)) }
        ensures fits { IfOk result (λ plan. Fits fs plan.fresh self.old.rows self.old.next) }
        ensures below { IfOk result (λ plan. All (λ (x : Fresh). x.place < used self.old.rows + length plan.fresh) plan.fresh) }
        ensures space { OnOk result (needed fs first last self.old.rows ≤ allocated - used self.old.rows) }
        ensures placed { IfOk result (λ plan. All (λ (x : Fresh). x.place < allocated) plan.fresh) }
        ensures room { OnOk result (2 ≤ self.new.room) }
        ensures kept { self.old.room ≤ self.new.room }
        ensures rows { self.new.rows ≡ self.old.rows }
        ensures same { self.new.next ≡ self.old.next }
    {
        self.ask(fs, first, last, allocated)?;
        self.reserve(2)?;
        Ok(self.planned(fs, first, last))
    }

    /// Whether a write to the block takes a fresh cell.
    fn takes_cell(&self, fs: u64, block: u32) -> bool
        ensures takes { result ≡ sums.takes_cell (map_of fs self.now.rows) (cells_of self.now.rows) block }
        ensures valid { IsThin self.now.rows self.now.next }
    {
        match self.mapping(fs, block) {
            Some(mapping) => self.uses_of(mapping.place) > 1,
            None => true,
        }
    }

    /// Whether the block has no mapping.
    fn is_unmapped(&self, fs: u64, block: u32) -> bool
        ensures { result ≡ is_none (lookup (nat_eq block) (map_of fs self.now.rows)) }
    {
        match self.mapping(fs, block) {
            Some(_) => false,
            None => true,
        }
    }

    /// Whether the last block of a write to two blocks takes a fresh cell.
    fn takes_last(&self, fs: u64, first: u32, last: u32) -> bool
        ensures { result ≡ (nat_lt first last && sums.takes_cell (map_of fs self.now.rows) (cells_of self.now.rows) last) }
    {
        first < last && self.takes_cell(fs, last)
    }

    /// Whether a block is unmapped and whether it takes a fresh cell, as numbers.
    fn demand_of(&self, fs: u64, block: u32) -> (u64, u64)
        ensures more { result.0 ≡ one (is_none (lookup (nat_eq block) (map_of fs self.now.rows))) }
        ensures needed { result.1 ≡ one (sums.takes_cell (map_of fs self.now.rows) (cells_of self.now.rows) block) }
        ensures small { (result.0 ≤ 1) × (result.1 ≤ 1) }
    {
        (
            one(self.is_unmapped(fs, block)),
            one(self.takes_cell(fs, block)),
        )
    }

    /// How many blocks of a write are unmapped, and how many take a fresh cell.
    fn demand(&self, fs: u64, first: u32, last: u32) -> (u64, u64)
        ensures more { result.0 ≡ more fs first last self.now.rows }
        ensures needed { result.1 ≡ needed fs first last self.now.rows }
        ensures small { (result.0 ≤ 2) × (result.1 ≤ 2) }
    {
        let (more, needed) = self.demand_of(fs, first);
        if first < last {
            let (more_too, needed_too) = self.demand_of(fs, last);
            return (more + more_too, needed + needed_too);
        }
        (more, needed)
    }

    /// Whether a write may be made: first the mappings are looked at, then the free blocks.
    fn ask(&self, fs: u64, first: u32, last: u32, allocated: u64) -> Result<(), PlanFault>
        ensures full { MAX_MAPPINGS < length self.now.rows + more fs first last self.now.rows → result ≡ Err (MappingFull (length self.now.rows) (more fs first last self.now.rows)) }
        ensures full_only { IfErr result (λ fault. (m n : ℕ) → fault ≡ MappingFull m n → MAX_MAPPINGS < length self.now.rows + more fs first last self.now.rows) }
        ensures no_space { length self.now.rows + more fs first last self.now.rows ≤ MAX_MAPPINGS → allocated - used self.now.rows < needed fs first last self.now.rows → result ≡ Err (NoSpace (allocated - used self.now.rows) (needed fs first last self.now.rows)) }
        ensures no_space_only { IfErr result (λ fault. (free n : ℕ) → fault ≡ NoSpace free n → allocated - used self.now.rows < needed fs first last self.now.rows) }
        ensures few { OnOk result (length self.now.rows + more fs first last self.now.rows ≤ MAX_MAPPINGS) }
        ensures space { OnOk result (needed fs first last self.now.rows ≤ allocated - used self.now.rows) }
    {
        let (more, needed) = self.demand(fs, first, last);
        let mappings = self.mappings();
        if MAX_MAPPINGS < mappings + more {
            return Err(PlanFault::MappingFull(mappings, more));
        }
        let free = allocated.saturating_sub(self.used());
        if free < needed {
            return Err(PlanFault::NoSpace(free, needed));
        }
        Ok(())
    }

    /// The plan of one fresh cell.
    fn plan_one(&self, fs: u64, block: u32) -> Plan
        requires few { length self.now.rows + one (is_none (mapping_at fs block self.now.rows)) ≤ MAX_MAPPINGS }
        ensures fs { result.fs ≡ fs }
        ensures blocks { map (λ (x : Fresh). x.block) result.fresh ≡ block ∷ [] }
        ensures fits { Fits fs result.fresh self.now.rows self.now.next }
        ensures below { All (λ (x : Fresh). x.place < used self.now.rows + length result.fresh) result.fresh }
    {
        let (place, _) = self.free_places();
        let cell = self.next_cell();
        let fresh = Fresh { block, cell, place };
        Plan::of(fs, [fresh, fresh], 1)
    }

    /// The plan of two fresh cells.
    fn plan_two(&self, fs: u64, first: u32, last: u32) -> Plan
        requires order { first < last }
        requires next { self.now.next ≤ 2 ^ 49 }
        requires few { length self.now.rows + (one (is_none (mapping_at fs first self.now.rows)) + one (is_none (mapping_at fs last self.now.rows))) ≤ MAX_MAPPINGS }
        ensures fs { result.fs ≡ fs }
        ensures blocks { map (λ (x : Fresh). x.block) result.fresh ≡ first ∷ last ∷ [] }
        ensures fits { Fits fs result.fresh self.now.rows self.now.next }
        ensures below { All (λ (x : Fresh). x.place < used self.now.rows + length result.fresh) result.fresh }
    {
        let (low, high) = self.free_places();
        let cell = self.next_cell();
        let one = Fresh {
            block: first,
            cell,
            place: low,
        };
        let two = Fresh {
            block: last,
            cell: cell + 1,
            place: high,
        };
        Plan::of(fs, [one, two], 2)
    }

    /// The fresh cells of a write that may be made.
    fn planned(&self, fs: u64, first: u32, last: u32) -> Plan
        requires next { self.now.next ≤ 2 ^ 49 }
        requires few { length self.now.rows + more fs first last self.now.rows ≤ MAX_MAPPINGS }
        ensures fs { result.fs ≡ fs }
        ensures blocks { map (λ (x : Fresh). x.block) result.fresh ≡ filter (sums.takes_cell (map_of fs self.now.rows) (cells_of self.now.rows)) (touched first last) }
        ensures fits { Fits fs result.fresh self.now.rows self.now.next }
        ensures below { All (λ (x : Fresh). x.place < used self.now.rows + length result.fresh) result.fresh }
    {
        match (self.takes_cell(fs, first), self.takes_last(fs, first, last)) {
            (true, true) => self.plan_two(fs, first, last),
            (true, false) => self.plan_one(fs, first),
            (false, true) => self.plan_one(fs, last),
            (false, false) => Plan::none(fs),
        }
    }
}

fn one(is: bool) -> u64
    ensures value { result ≡ one is }
    ensures small { result ≤ 1 }
{
    if is { 1 } else { 0 }
}

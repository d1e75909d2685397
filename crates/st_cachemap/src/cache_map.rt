ghost use Rattle.std.specs.Prelude.{◌≡◌, ◌+◌, ◌<◌, ◌≤◌, ◌↔◌, true, false, IsTrue, IfOk, OnOk, OnErr, IsSome, MatchOption, Some, None, [], ◌∷◌, ◌++◌, ◌-◌, length, take, slice_get};
ghost use Rattle.st_limits.specs.Cache.{has, touched, promoted, dropped, hits_after, misses_after, counted};
ghost use Rattle.st_cachemap.specs.Cached.{Cached, cells_of, places_of, place_in, without_cell, without_place, fronted_at, touch_place, IsTouch, IsCached, MissedAt};

use crate::answer::Touch;
use crate::slots::{FREE, USED, all_free, bucket_of};
use st_links::Links;
use st_units::NoMemory;
use std::alloc::Global;
use std::marker::Model;
use std::mem;

/// The cached cells in order of use. A cell keeps its place while it stays. Only `make` and `grow` take memory.
#[derive(Drop)]
pub struct CacheMap {
    // Two lists: the places in use, the one used last first, and the free ones.
    order: Links,
    // A list for each bucket, of the places whose cells fall into it.
    buckets: Links,
    // The cell at each place in use.
    cells: Vec<u64>,
    len: usize,
    hits: u64,
    misses: u64,
}

impl Model for CacheMap {
    ghost use Rattle.std.specs.Prelude.{length};
    ghost use Rattle.st_cachemap.specs.Cached.{Cached};
    ghost use Rattle.st_cachemap.specs.Sound.{entries_at, used, Sound};

    ghost Value = { Cached };

    ghost view = { λ c. record { capacity = length c.cells.items; entries = entries_at c.cells.items (used c.order); hits = c.hits; misses = c.misses } };

    ghost invariant = { λ c. Sound c.order c.buckets c.cells.items c.len };
}

impl CacheMap {
    /// An empty cache for so many cells.
    pub fn make(alloc: Global, capacity: usize) -> Result<Self, NoMemory>
        requires { 0 < capacity }
        ensures { IfOk result (λ c. c ≡ record { capacity = capacity; entries = []; hits = 0; misses = 0 }) }
    {
        let order = all_free(alloc, capacity)?;
        let buckets = Links::make(alloc, capacity, capacity)?;
        let cells = vec![in alloc; 0; capacity]?;
        Ok(CacheMap {
            order,
            buckets,
            cells,
            len: 0,
            hits: 0,
            misses: 0,
        })
    }

    /// How many cells it may hold.
    pub fn capacity(&self) -> usize
        ensures capacity { result ≡ self.now.capacity }
        ensures some { 0 < result }
    {
        self.cells.len()
    }

    /// How many cells it holds.
    pub fn len(&self) -> usize
        ensures len { result ≡ length self.now.entries }
        ensures fits { result ≤ self.now.capacity }
    {
        self.len
    }

    /// How many touches found their cell; the count stops at its last value.
    pub fn hits(&self) -> u64
        ensures { result ≡ self.now.hits }
    {
        self.hits
    }

    /// How many touches found no cell; the count stops at its last value.
    pub fn misses(&self) -> u64
        ensures { result ≡ self.now.misses }
    {
        self.misses
    }

    /// The same map once more, with each cell at its place.
    pub fn copy(&self) -> Result<Self, NoMemory>
        ensures { IfOk result (λ copy. copy ≡ self.now) }
    {
        Ok(CacheMap {
            order: self.order.copy()?,
            buckets: self.buckets.copy()?,
            cells: self.cells.clone()?,
            len: self.len,
            hits: self.hits,
            misses: self.misses,
        })
    }

    /// The place of a cell of the list. Nothing changes.
    pub fn peek(&self, cell: u64) -> Option<usize>
        ensures place { result ≡ place_in self.now.entries cell }
        ensures valid { IsCached self.now }
    {
        let bucket = bucket_of(cell, self.cells.len());
        let mut at = self.buckets.first(bucket);
        'chain: while let Some(place) = at {
            if self.cells[place] == cell {
                return Some(place);
            }
            at = self.buckets.next(place);
        }
        None
    }

    /// Takes the place out of use.
    fn release(&mut self, place: usize)
        requires { has place (places_of self.old) ≡ true }
        ensures { self.new ≡ record self.old { entries = without_place place self.old.entries } }
    {
        self.buckets.unlink(place);
        self.order.unlink(place);
        self.order.push_back(FREE, place);
        self.len -= 1;
    }

    /// Puts a cell that is not in the list first, at a free place.
    fn occupy(&mut self, place: usize, cell: u64)
        requires place { place < self.old.capacity }
        requires free { has place (places_of self.old) ≡ false }
        requires absent { has cell (cells_of self.old) ≡ false }
        ensures { self.new ≡ record self.old { entries = (cell, place) ∷ self.old.entries } }
    {
        self.order.unlink(place);
        self.order.push_front(USED, place);
        self.cells[place] = cell;
        let bucket = bucket_of(cell, self.cells.len());
        self.buckets.push_front(bucket, place);
        self.len += 1;
    }

    /// Moves the cell at the place to the front.
    fn move_front(&mut self, place: usize, cell: u64)
        requires { place_in self.old.entries cell ≡ Some place }
        ensures { self.new ≡ record self.old { entries = fronted_at cell place self.old.entries } }
    {
        self.order.move_front(place);
    }

    /// Takes out the cell that was used least recently, with its place.
    fn pop_last(&mut self) -> Option<(u64, usize)>
        ensures { MatchOption result ((self.old.entries ≡ []) × (self.new ≡ self.old)) (λ e. (self.old.entries ≡ self.new.entries ++ e ∷ []) × (self.new ≡ record self.old { entries = self.new.entries })) }
    {
        match self.order.last(USED) {
            None => None,
            Some(place) => {
                let cell = self.cells[place];
                self.release(place);
                Some((cell, place))
            }
        }
    }

    /// A free place.
    fn free_place(&self) -> usize
        requires { length self.now.entries < self.now.capacity }
        ensures place { result < self.now.capacity }
        ensures free { has result (places_of self.now) ≡ false }
    {
        match self.order.first(FREE) {
            Some(place) => place,
            None => unreachable!(),
        }
    }

    /// Reads a cell: it goes to the front of the list, and the last falls out where the list would be longer than the capacity.
    pub fn touch(&mut self, cell: u64) -> Touch
        ensures answer { IsTouch self.old cell result }
        ensures entries { self.new.entries ≡ take self.old.capacity (fronted_at cell (touch_place result) self.old.entries) }
        ensures cells { cells_of self.new ≡ touched self.old.capacity cell (cells_of self.old) }
        ensures hits { self.new.hits ≡ hits_after cell (cells_of self.old) self.old.hits }
        ensures misses { self.new.misses ≡ misses_after cell (cells_of self.old) self.old.misses }
        ensures capacity { self.new.capacity ≡ self.old.capacity }
        ensures valid { IsCached self.new }
    {
        match self.peek(cell) {
            Some(place) => self.hit(cell, place),
            None => self.miss(cell),
        }
    }

    /// Moves a cell of the list to the front, and counts nothing.
    pub fn promote(&mut self, cell: u64)
        requires { has cell (cells_of self.old) ≡ true }
        ensures cells { cells_of self.new ≡ promoted cell (cells_of self.old) }
        ensures same { self.new ≡ record self.old { entries = self.new.entries } }
        ensures places { MatchOption (place_in self.old.entries cell) (Unit {0}) (λ p. self.new.entries ≡ fronted_at cell p self.old.entries) }
    {
        if let Some(place) = self.peek(cell) {
            self.move_front(place, cell);
        }
    }

    /// Takes a cell out of the list, where it stands there.
    pub fn drop_cell(&mut self, cell: u64)
        ensures entries { self.new ≡ record self.old { entries = without_cell cell self.old.entries } }
        ensures cells { cells_of self.new ≡ dropped cell (cells_of self.old) }
    {
        if let Some(place) = self.peek(cell) {
            self.release(place);
        }
    }

    /// Empties the list, and sets both counts to 0.
    pub fn clear(&mut self)
        ensures { self.new ≡ record { capacity = self.old.capacity; entries = []; hits = 0; misses = 0 } }
    {
        'cells: while self.pop_last().is_some() {}
        self.hits = 0;
        self.misses = 0;
    }

    /// Makes room for so many cells. Nothing else changes, and after a refusal nothing at all.
    pub fn grow(&mut self, alloc: Global, capacity: usize) -> Result<(), NoMemory>
        requires { self.old.capacity ≤ capacity }
        ensures ok { OnOk result (self.new ≡ record self.old { capacity = capacity }) }
        ensures err { OnErr result (self.new ≡ self.old) }
    {
        let (hits, misses) = (self.hits, self.misses);
        let mut larger = CacheMap::make(alloc, capacity)?;
        larger.hits = hits;
        larger.misses = misses;
        larger.take_over(self);
        *self = larger;
        Ok(())
    }

    /// Takes over the entries of another map, which is empty then.
    fn take_over(&mut self, other: &mut CacheMap)
        requires empty { self.old.entries ≡ [] }
        requires valid { IsCached other.old }
        requires fits { other.old.capacity ≤ self.old.capacity }
        ensures taken { self.new ≡ record self.old { entries = other.old.entries } }
        ensures left { other.new ≡ record other.old { entries = [] } }
    {
        'cells: while let Some((cell, place)) = other.pop_last() {
            self.occupy(place, cell);
        }
    }

    fn hit(&mut self, cell: u64, place: usize) -> Touch
        requires { place_in self.old.entries cell ≡ Some place }
        ensures answer { result ≡ Touch.Hit place }
        ensures valid { IsCached self.new }
        ensures counted { self.new ≡ record self.old { entries = fronted_at cell place self.old.entries; hits = counted self.old.hits } }
    {
        self.move_front(place, cell);
        self.hits = self.hits.saturating_add(1);
        Touch::Hit(place)
    }

    fn miss(&mut self, cell: u64) -> Touch
        requires { has cell (cells_of self.old) ≡ false }
        ensures answer { MissedAt self.old self.new cell result }
        ensures valid { IsCached self.new }
    {
        let out = self.make_room();
        let place = self.free_place();
        self.occupy(place, cell);
        self.misses = self.misses.saturating_add(1);
        Touch::Miss(place, out)
    }

    /// Takes the last cell out of a full list.
    fn make_room(&mut self) -> Option<u64>
        ensures out { result ≡ slice_get (cells_of self.old) (self.old.capacity - 1) }
        ensures kept { self.new.entries ≡ take (self.old.capacity - 1) self.old.entries }
        ensures rest { self.new ≡ record self.old { entries = self.new.entries } }
        ensures room { length self.new.entries < self.old.capacity }
    {
        if self.len < self.cells.len() {
            return None;
        }
        match self.pop_last() {
            Some((cell, _place)) => Some(cell),
            None => unreachable!(),
        }
    }
}

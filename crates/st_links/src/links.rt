ghost use Rattle.std.specs.Prelude.{◌≡◌, ◌<◌, IsTrue, IsFalse, IfOk, true, false, length, replicate, []};
ghost use Rattle.st_links.specs.Arena.{Arena, row, is_linked, pushed_front, pushed_back, unlinked, fronted, first_of, last_of, next_of, prev_of, IsArena};

use crate::nodes::{homes, place_of, put_behind, selves, take_out};
use st_units::NoMemory;
use std::alloc::Global;
use std::marker::Model;

/// Lists of places, each place in one of them at most. Both are named by number, and all memory is taken by `make`; each call takes
/// the same time, however long the lists are.
#[derive(Drop)]
pub struct Links {
    // A node is a place, or past the places the sentinel of a list.
    next: Vec<usize>,
    prev: Vec<usize>,
    // The list that a node stands in, and `lists` for a place that stands in none.
    home: Vec<usize>,
    lists: usize,
    places: usize,
}

impl Model for Links {
    ghost use Rattle.st_links.specs.Arena.{Arena};
    ghost use Rattle.st_links.specs.Ring.{rows, Tied};

    ghost Value = { Arena };

    ghost view = { λ s. record { lists = rows s.next.items s.places s.lists; places = s.places } };

    ghost invariant = { λ s. Tied s.next.items s.prev.items s.home.items s.places s.lists (rows s.next.items s.places s.lists) };
}

impl Links {
    /// So many empty lists, over so many places.
    pub fn make(alloc: Global, lists: usize, places: usize) -> Result<Self, NoMemory>
        ensures lists { IfOk result (λ links. links ≡ record { lists = replicate lists []; places = places }) }
        ensures valid { IfOk result (λ links. IsArena links.lists links.places) }
    {
        let nodes = places.checked_add(lists).ok_or(NoMemory)?;
        let next = selves(alloc, nodes)?;
        let prev = selves(alloc, nodes)?;
        let home = homes(alloc, lists, places)?;
        Ok(Links {
            next,
            prev,
            home,
            lists,
            places,
        })
    }

    /// The same lists once more.
    pub fn copy(&self) -> Result<Self, NoMemory>
        ensures { IfOk result (λ copy. copy ≡ self.now) }
    {
        Ok(Links {
            next: self.next.clone()?,
            prev: self.prev.clone()?,
            home: self.home.clone()?,
            lists: self.lists,
            places: self.places,
        })
    }

    /// How many places there are.
    pub fn places(&self) -> usize
        ensures places { result ≡ self.now.places }
        ensures valid { IsArena self.now.lists self.now.places }
    {
        self.places
    }

    /// How many lists there are.
    pub fn lists(&self) -> usize
        ensures lists { result ≡ length self.now.lists }
    {
        self.lists
    }

    /// Whether the place stands in a list.
    pub fn is_linked(&self, place: usize) -> bool
        ensures { result ≡ is_linked self.now.lists place }
    {
        place < self.places && self.home[place] < self.lists
    }

    /// Puts a place that stands in no list first in this one.
    pub fn push_front(&mut self, list: usize, place: usize)
        requires list { list < length self.old.lists }
        requires place { place < self.old.places }
        requires free { is_linked self.old.lists place ≡ false }
        ensures lists { self.new ≡ record self.old { lists = pushed_front self.old.lists list place } }
        ensures valid { IsArena self.new.lists self.new.places }
    {
        self.home[place] = list;
        put_behind(&mut self.next, &mut self.prev, self.places + list, place);
    }

    /// Puts a place that stands in no list last in this one.
    pub fn push_back(&mut self, list: usize, place: usize)
        requires list { list < length self.old.lists }
        requires place { place < self.old.places }
        requires free { is_linked self.old.lists place ≡ false }
        ensures lists { self.new ≡ record self.old { lists = pushed_back self.old.lists list place } }
        ensures valid { IsArena self.new.lists self.new.places }
    {
        self.home[place] = list;
        let last = self.prev[self.places + list];
        put_behind(&mut self.next, &mut self.prev, last, place);
    }

    /// Takes a place out of its list.
    pub fn unlink(&mut self, place: usize)
        requires linked { is_linked self.old.lists place ≡ true }
        ensures lists { self.new ≡ record self.old { lists = unlinked self.old.lists place } }
        ensures valid { IsArena self.new.lists self.new.places }
    {
        take_out(&mut self.next, &mut self.prev, place);
        self.home[place] = self.lists;
    }

    /// Moves a place to the front of its list.
    pub fn move_front(&mut self, place: usize)
        requires linked { is_linked self.old.lists place ≡ true }
        ensures lists { self.new ≡ record self.old { lists = fronted self.old.lists place } }
        ensures valid { IsArena self.new.lists self.new.places }
    {
        take_out(&mut self.next, &mut self.prev, place);
        let sentinel = self.places + self.home[place];
        put_behind(&mut self.next, &mut self.prev, sentinel, place);
    }

    /// The first place of the list.
    pub fn first(&self, list: usize) -> Option<usize>
        ensures { result ≡ first_of (row self.now.lists list) }
    {
        if list >= self.lists {
            return None;
        }
        place_of(self.next[self.places + list], self.places)
    }

    /// The last place of the list.
    pub fn last(&self, list: usize) -> Option<usize>
        ensures { result ≡ last_of (row self.now.lists list) }
    {
        if list >= self.lists {
            return None;
        }
        place_of(self.prev[self.places + list], self.places)
    }

    /// The place behind this one in its list.
    pub fn next(&self, place: usize) -> Option<usize>
        ensures { result ≡ next_of self.now.lists place }
    {
        if !self.is_linked(place) {
            return None;
        }
        place_of(self.next[place], self.places)
    }

    /// The place before this one in its list.
    pub fn prev(&self, place: usize) -> Option<usize>
        ensures { result ≡ prev_of self.now.lists place }
    {
        if !self.is_linked(place) {
            return None;
        }
        place_of(self.prev[place], self.places)
    }
}

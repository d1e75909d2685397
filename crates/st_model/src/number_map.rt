ghost use Rattle.std.specs.Prelude.{◌≡◌, ◌^◌, ◌<◌, [], length, nat_eq, ℕ, option_copied, IfOk, OnOk, OnErr};
ghost use Rattle.std.specs.BTreeMap.{insert_entry};
ghost use Rattle.std.specs.List.Sorted.{IsStrictlySortedBy};
ghost use Rattle.std.specs.Map.{keys_of, lookup, remove_entry};
ghost use Rattle.std.specs.Map.Iter.{ShowsInOrder, deref_pair};
ghost use Rattle.std.specs.Ordering.{nat_cmp};

use st_units::{Bytes, NoMemory};
use std::alloc::Global;
use std::collections::BTreeMap;
use std::collections::btree_map::Iter;
use std::marker::Model;

/// A map from numbers, seen by contracts as its entries in rising order of the numbers.
#[derive(Drop)]
pub struct NumberMap<T> {
    entries: BTreeMap<u64, T>,
}

impl<T> Model for NumberMap<T> {
    ghost use Rattle.std.specs.Prelude.{ℕ, List};

    ghost Value = { List (ℕ × T) };

    ghost view = { λ m. m.entries.entries };
}

impl<T> NumberMap<T> {
    /// The empty map, which takes no memory.
    pub fn make(alloc: Global) -> Self
        ensures { result ≡ [] }
    {
        NumberMap {
            entries: BTreeMap::new(alloc),
        }
    }

    /// How many numbers have an entry.
    pub fn len(&self) -> usize
        ensures { result ≡ length self.now }
    {
        self.entries.len()
    }

    /// What the number has.
    pub fn get(&self, number: u64) -> Option<&T>
        ensures { option_copied result ≡ lookup (nat_eq number) self.now }
    {
        self.entries.get(&number)
    }

    /// The entries in rising order of the numbers.
    pub fn iter(&self) -> Iter<'_, u64, T>
        ensures rest { result ≡ self.now }
        ensures runs { ShowsInOrder (deref_pair {K = ℕ} {X = T}) }
        ensures rising { IsStrictlySortedBy nat_cmp (keys_of self.now) }
        ensures fits { length self.now < 2 ^ 63 }
    {
        self.entries.iter()
    }
}

impl<T: Drop> NumberMap<T> {
    /// Gives the number this entry, in place of what it had. A refusal changes nothing.
    pub fn insert(&mut self, number: u64, item: T) -> Result<(), NoMemory>
        ensures ok { OnOk result (self.new ≡ insert_entry nat_cmp self.old number item) }
        ensures err { OnErr result (self.new ≡ self.old) }
    {
        match self.entries.insert(number, item) {
            Ok(_) => Ok(()),
            Err(_) => Err(NoMemory),
        }
    }

    /// Takes the entry of the number out.
    pub fn remove(&mut self, number: u64) -> Option<T>
        ensures taken { result ≡ lookup (nat_eq number) self.old }
        ensures rest { self.new ≡ remove_entry (nat_eq number) self.old }
    {
        self.entries.remove(&number)
    }
}

impl NumberMap<u64> {
    /// The same map once more.
    pub fn copy(&self) -> Result<Self, NoMemory>
        ensures { IfOk result (λ copy. copy ≡ self.now) }
    {
        Ok(NumberMap {
            entries: self.entries.clone()?,
        })
    }
}

impl NumberMap<Bytes> {
    /// The same map once more.
    pub fn copy(&self, alloc: Global) -> Result<Self, NoMemory>
        ensures { IfOk result (λ copy. copy ≡ self.now) }
    {
        let mut copy = NumberMap::make(alloc);
        for (number, item) in self.entries.iter() {
            copy.insert(*number, Bytes::copy_of(alloc, item.items())?)?;
        }
        Ok(copy)
    }
}

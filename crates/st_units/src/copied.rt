ghost use Rattle.std.specs.Prelude.{◌≡◌, IfOk};

use crate::list::ItemList;
use crate::memory::NoMemory;
use crate::name::Name;
use crate::path::DevPath;
use crate::rows::{DevRow, FsRow};
use std::alloc::Global;

/// What can be copied where memory allows.
pub trait Copied: Sized {
    /// The same value once more.
    fn copied(&self) -> Result<Self, NoMemory>
        ensures { IfOk result (λ copy. copy ≡ self.now) };
}

impl Copied for Name {
    fn copied(&self) -> Result<Name, NoMemory> {
        self.copy()
    }
}

impl Copied for DevPath {
    fn copied(&self) -> Result<DevPath, NoMemory> {
        self.copy()
    }
}

impl Copied for DevRow {
    fn copied(&self) -> Result<DevRow, NoMemory> {
        self.copy()
    }
}

impl Copied for FsRow {
    fn copied(&self) -> Result<FsRow, NoMemory> {
        self.copy()
    }
}

impl<T: Copied + Drop> ItemList<T> {
    /// The same list once more.
    pub fn copy(&self, alloc: Global) -> Result<Self, NoMemory>
        ensures { IfOk result (λ list. list ≡ self.now) }
    {
        let items = self.items();
        let mut list = ItemList::make(alloc);
        for item in items {
            list.push(item.copied()?)?;
        }
        Ok(list)
    }
}

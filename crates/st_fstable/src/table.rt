ghost use Rattle.std.specs.Prelude.{◌≡◌, ◌<◌, ◌++◌, ◌∷◌, [], length, slice_get, true, false, Some, IfSome, IfNone, IfOk, IfErr, OnOk, OnErr, option_copied, vec_len, vec_capacity};
ghost use Rattle.std.specs.List.{AllByRecursion};
ghost use Rattle.st_units.specs.declared.rows.FsRow.{FsRow};
ghost use Rattle.st_model.specs.steps.RenameFilesystem.{named};
ghost use Rattle.st_model.specs.steps.SetMerge.{with_mark};
ghost use Rattle.st_model.specs.steps.SetSizeLimit.{limited};
ghost use Rattle.st_fstable.specs.inner.ByName.{IsIndexed};
ghost use Rattle.st_fstable.specs.Rows.{AreRows, row_at, serial_of, is_there, is_called, without, changed, sized, from, destroyed};

use crate::names::{enter, leave, search_name};
use crate::rows::{copy_rows, pass_on, place_of, search_serial};
use st_units::{FsRow, Name, NoMemory};
use std::alloc::{AllocError, Global};
use std::marker::Model;

/// The filesystems of a pool; contracts see their rows in order of creation. `len` has what holds of every table.
#[derive(Drop)]
pub struct FsTable {
    rows: Vec<FsRow>,
    // Their serials, in byte order of their names.
    names: Vec<u64>,
}

impl Model for FsTable {
    ghost use Rattle.std.specs.Prelude.{List};
    ghost use Rattle.st_units.specs.declared.rows.FsRow.{FsRow};
    ghost use Rattle.st_fstable.specs.inner.ByName.{IsIndexed};

    ghost Value = { List FsRow };

    ghost view = { λ t. t.rows.items };

    ghost invariant = { λ t. IsIndexed t.rows.items t.names.items };
}

/// Makes room for one filesystem more.
fn reserve(rows: &mut Vec<FsRow>, names: &mut Vec<u64>) -> Result<(), AllocError>
    ensures rows { rows.new.items ≡ rows.old.items }
    ensures names { names.new.items ≡ names.old.items }
    ensures rows_room { OnOk result (vec_len rows.new < vec_capacity rows.new) }
    ensures names_room { OnOk result (vec_len names.new < vec_capacity names.new) }
{
    rows.reserve(1)?;
    names.reserve(1)?;
    Ok(())
}

/// Puts a filesystem last, into the room that was made.
fn put(rows: &mut Vec<FsRow>, names: &mut Vec<u64>, row: FsRow)
    requires indexed { IsIndexed rows.old.items names.old.items }
    requires serial { AllByRecursion (λ (other : FsRow). other.serial < row.serial) rows.old.items }
    requires name { is_called row.name rows.old.items ≡ false }
    requires rows_room { vec_len rows.old < vec_capacity rows.old }
    requires names_room { vec_len names.old < vec_capacity names.old }
    ensures rows { rows.new.items ≡ rows.old.items ++ row ∷ [] }
    ensures indexed { IsIndexed rows.new.items names.new.items }
{
    let serial = row.serial;
    match rows.push(row) {
        Ok(()) => enter(rows, names, serial),
        Err(_) => unreachable!(),
    }
}

impl FsTable {
    /// No filesystem. It takes no memory.
    pub fn make(alloc: Global) -> FsTable
        ensures { result ≡ [] }
    {
        FsTable {
            rows: Vec::new(alloc),
            names: Vec::new(alloc),
        }
    }

    /// The same table once more.
    pub fn copy(&self, alloc: Global) -> Result<FsTable, NoMemory>
        ensures { IfOk result (λ copy. copy ≡ self.now) }
    {
        Ok(FsTable {
            rows: copy_rows(alloc, &self.rows)?,
            names: self.names.clone()?,
        })
    }

    /// How many filesystems there are.
    pub fn len(&self) -> usize
        ensures count { result ≡ length self.now }
        ensures rows { AreRows self.now }
    {
        self.rows.len()
    }

    /// The filesystem at place `i` in order of creation, counted from 0.
    pub fn at(&self, i: usize) -> &FsRow
        requires { i < length self.now }
        ensures { slice_get self.now i ≡ Some result.now }
    {
        &self.rows[i]
    }

    /// The filesystem of this serial, None exactly where there is none.
    pub fn row(&self, serial: u64) -> Option<&FsRow>
        ensures row { option_copied result ≡ row_at serial self.now }
        ensures there { IfSome result (λ _. is_there serial self.now ≡ true) }
    {
        match search_serial(&self.rows, serial) {
            Ok(i) => Some(&self.rows[i]),
            Err(_) => None,
        }
    }

    /// The serial of the filesystem of this name, None exactly where there is none.
    pub fn find(&self, name: &Name) -> Option<u64>
        ensures serial { result ≡ serial_of name.now self.now }
        ensures new { IfNone result (is_called name.now self.now ≡ false) }
    {
        match search_name(&self.rows, &self.names, name.bytes()) {
            Ok(i) => Some(self.names[i]),
            Err(_) => None,
        }
    }

    /// A new filesystem, which comes last. A refusal hands its row back and changes nothing.
    pub fn insert(&mut self, row: FsRow) -> Result<(), (FsRow, NoMemory)>
        requires serial { AllByRecursion (λ (other : FsRow). other.serial < row.serial) self.old }
        requires name { is_called row.name self.old ≡ false }
        ensures ok { OnOk result (self.new ≡ self.old ++ row ∷ []) }
        ensures err { OnErr result (self.new ≡ self.old) }
        ensures back { IfErr result (λ e. e.0 ≡ row) }
    {
        match reserve(&mut self.rows, &mut self.names) {
            Ok(()) => {
                put(&mut self.rows, &mut self.names, row);
                Ok(())
            }
            Err(_) => Err((row, NoMemory)),
        }
    }

    /// Gives a filesystem another name.
    pub fn rename(&mut self, serial: u64, name: Name)
        requires there { is_there serial self.old ≡ true }
        requires name { is_called name self.old ≡ false }
        ensures { self.new ≡ changed (named name) serial self.old }
    {
        leave(&self.rows, &mut self.names, serial);
        let i = place_of(&self.rows, serial);
        self.rows[i].name = name;
        enter(&self.rows, &mut self.names, serial);
    }

    /// Sets the size in sectors that a filesystem may grow to, or none.
    pub fn set_limit(&mut self, serial: u64, limit: Option<u64>)
        requires { is_there serial self.old ≡ true }
        ensures { self.new ≡ changed (limited limit) serial self.old }
    {
        let i = place_of(&self.rows, serial);
        self.rows[i].limit = limit;
    }

    /// Sets the size of a filesystem, in sectors.
    pub fn set_size(&mut self, serial: u64, size: u64)
        requires { is_there serial self.old ≡ true }
        ensures { self.new ≡ changed (sized size) serial self.old }
    {
        let i = place_of(&self.rows, serial);
        self.rows[i].size = size;
    }

    /// Sets the serial of a filesystem's origin, or none.
    pub fn set_origin(&mut self, serial: u64, origin: Option<u64>)
        requires { is_there serial self.old ≡ true }
        ensures { self.new ≡ changed (from origin) serial self.old }
    {
        let i = place_of(&self.rows, serial);
        self.rows[i].origin = origin;
    }

    /// Marks a filesystem to replace its origin at the pool's next start, or takes the mark away.
    pub fn set_merge(&mut self, serial: u64, value: bool)
        requires { is_there serial self.old ≡ true }
        ensures { self.new ≡ changed (with_mark value) serial self.old }
    {
        let i = place_of(&self.rows, serial);
        self.rows[i].merge = value;
    }

    /// Takes the filesystem of this serial out, and nothing else: None exactly where there is none.
    pub fn remove(&mut self, serial: u64) -> Option<FsRow>
        ensures row { result ≡ row_at serial self.old }
        ensures rest { self.new ≡ without serial self.old }
    {
        match search_serial(&self.rows, serial) {
            Ok(i) => {
                leave(&self.rows, &mut self.names, serial);
                Some(self.rows.remove(i))
            }
            Err(_) => None,
        }
    }

    /// The filesystem of this serial goes, None exactly where there is none. Those of which it is the origin get its own
    /// origin, and are no longer marked.
    pub fn destroy(&mut self, serial: u64) -> Option<FsRow>
        ensures row { result ≡ row_at serial self.old }
        ensures rest { self.new ≡ destroyed serial self.old }
    {
        match self.remove(serial) {
            Some(gone) => {
                pass_on(&mut self.rows, &gone);
                Some(gone)
            }
            None => None,
        }
    }
}

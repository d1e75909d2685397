ghost use Rattle.std.specs.Prelude.{◌≡◌, true, false, List, ℕ, [], ◌∷◌, length, ◌<◌, ◌≤◌, OnOk, IfOk, IfErr};
ghost use Rattle.std.specs.List.{take_while};
ghost use Rattle.st_wants.specs.Names.{is_before, is_named, are_rising, are_one_to_eight, with_name, names_of, AreNamesOf};

use st_units::{Name, NameList, NoMemory};
use std::marker::Model;
use thiserror::Error;

/// Why a list gave no names of pools.
#[derive(Debug, Drop, Error)]
pub enum NamesFault {
    #[error("not 1 to 8 distinct names")]
    BadCount,
    #[error("out of memory")]
    OutOfMemory,
}

impl From<NoMemory> for NamesFault {
    ghost use Rattle.std.specs.Prelude.{◌≡◌};
    ghost use Rattle.st_wants.specs.declared.names.NamesFault.TheVariants.{OutOfMemory};

    ghost from_gives = { λ _ e. e ≡ OutOfMemory };

    fn from(_: NoMemory) -> NamesFault {
        NamesFault::OutOfMemory
    }
}

/// From 1 to 8 distinct names of pools, in byte order.
#[derive(Drop)]
pub struct Names {
    list: NameList,
}

impl Model for Names {
    ghost use Rattle.std.specs.Prelude.{ℕ, List, ◌≡◌, true};
    ghost use Rattle.st_wants.specs.Names.{are_rising, are_one_to_eight};

    ghost Value = { List (List ℕ) };

    ghost view = { λ n. n.list };

    ghost invariant = { λ n. (are_rising n.list ≡ true) × (are_one_to_eight n.list ≡ true) };
}

impl Names {
    /// The names of a list, each once. `BadCount` comes exactly where they aren't 1 to 8.
    pub fn read(list: &NameList) -> Result<Names, NamesFault>
        ensures ok { IfOk result (λ names. names ≡ names_of list.now) }
        ensures bad { IfErr result (λ e. e ≡ NamesFault.BadCount → are_one_to_eight (names_of list.now) ≡ false) }
    {
        let mut names = NameList::make(list.memory());
        for name in list.items() {
            put_in(&mut names, name)?;
        }
        if names.len() == 0 {
            return Err(NamesFault::BadCount);
        }
        Ok(Names { list: names })
    }

    /// One name alone.
    pub fn one(name: Name) -> Result<Names, NoMemory>
        ensures { IfOk result (λ names. names ≡ name ∷ []) }
    {
        let mut list = NameList::make(name.memory());
        match list.push(name) {
            Ok(()) => Ok(Names { list }),
            Err((_, refused)) => Err(refused),
        }
    }

    /// The same names once more.
    pub fn copy(&self) -> Result<Names, NoMemory>
        ensures { IfOk result (λ names. names ≡ self.now) }
    {
        Ok(Names {
            list: self.list.copy(self.list.memory())?,
        })
    }

    /// The names, in byte order.
    pub fn list(&self) -> &NameList
        ensures value { result.now ≡ self.now }
        ensures rising { are_rising self.now ≡ true }
        ensures count { are_one_to_eight self.now ≡ true }
    {
        &self.list
    }

    /// Whether the name is one of these.
    pub fn has(&self, name: &Name) -> bool
        ensures { result ≡ is_named self.now name.now }
    {
        has(self.list.items(), name)
    }
}

fn has(names: &[Name], name: &Name) -> bool
    ensures { result ≡ is_named names.now name.now }
{
    names.iter().any(|p| p.bytes() == name.bytes())
}

/// How many names stand before all that aren't lower.
fn lower_names(names: &[Name], name: &Name) -> usize
    ensures { result ≡ length (take_while (λ p. is_before p name.now) names.now) }
{
    names
        .iter()
        .take_while(|p| p.bytes().cmp(name.bytes()).is_lt())
        .count()
}

/// Puts the name in its place, where it isn't there.
fn put_in(names: &mut NameList, name: &Name) -> Result<(), NamesFault>
    requires { length names.old ≤ 8 }
    ensures ok { OnOk result ((names.new ≡ with_name name.now names.old) × (length names.new ≤ 8)) }
    ensures bad { IfErr result (λ e. e ≡ NamesFault.BadCount → 8 < length (with_name name.now names.old)) }
{
    if has(names.items(), name) {
        return Ok(());
    }
    if names.len() == 8 {
        return Err(NamesFault::BadCount);
    }
    let place = lower_names(names.items(), name);
    names.insert(place, name.copy()?)?;
    Ok(())
}

/// The names of a list rise, and are just those that it has.
pub fn names_of_a_list()
    ensures { (list : List (List ℕ)) → AreNamesOf list (names_of list) }
{}

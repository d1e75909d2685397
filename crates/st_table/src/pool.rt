ghost use Rattle.std.specs.Prelude.{◌≡◌, ◌+◌, ◌≤◌, ◌++◌, [], length, None, IfOk, option_copied, vec_capacity};
ghost use Rattle.st_model.specs.Look.{has_path, is_name_of};
ghost use Rattle.st_model.specs.OnTable.{is_held};
ghost use Rattle.st_model.specs.Parts.{is_used};
ghost use Rattle.st_table.specs.Table.{holding, with_devices};
ghost use Rattle.st_table.specs.inner.Sound.{devices_held, new_held, info_held, table_pool};

use crate::halted::{HaltedInfo, copy_name};
use st_model::look;
use st_order::Keyed;
use st_units::{DevList, DevPath, Name, NoMemory, PoolSerial};
use std::alloc::Global;

/// What a known pool has.
#[derive(Drop)]
pub(crate) enum Holding {
    /// The devices in use, and the new name of a rename in flight.
    Started(DevList, Option<Name>),
    Halted(HaltedInfo),
}

pub(crate) fn is_name(held: Option<&Name>, name: &Name) -> bool
    ensures { result ≡ is_name_of name.now (option_copied held.entry) }
{
    match held {
        Some(held) => held.bytes() == name.bytes(),
        None => false,
    }
}

/// A known pool.
#[derive(Drop)]
pub(crate) struct Pool {
    pub name: Name,
    pub serial: PoolSerial,
    pub holding: Holding,
}

impl Keyed for Pool {
    ghost text = { λ pool. pool.name };

    fn key(&self) -> &[u8] {
        self.name.bytes()
    }
}

impl Holding {
    fn copy(&self, alloc: Global) -> Result<Holding, NoMemory>
        ensures { IfOk result (λ copy. copy ≡ self.now) }
    {
        match self {
            Holding::Started(devices, new) => {
                Ok(Holding::Started(devices.copy(alloc)?, copy_name(new)?))
            }
            Holding::Halted(info) => Ok(Holding::Halted(info.copy(alloc)?)),
        }
    }

    pub(crate) fn devices(&self) -> &DevList
        ensures { result.now ≡ devices_held self.now }
    {
        match self {
            Holding::Started(devices, _) => devices,
            Holding::Halted(info) => &info.devs,
        }
    }

    pub(crate) fn new_name(&self) -> Option<&Name>
        ensures { option_copied result ≡ new_held self.now }
    {
        match self {
            Holding::Started(_, new) => new.as_ref(),
            Holding::Halted(info) => info.new.as_ref(),
        }
    }

    fn uses(&self, path: &DevPath) -> bool
        ensures { result ≡ has_path path.now (devices_held self.now) }
    {
        look::has_path(self.devices().items(), path)
    }

    pub(crate) fn info(&self) -> Option<&HaltedInfo>
        ensures { option_copied result ≡ info_held self.now }
    {
        match self {
            Holding::Started(_, _) => None,
            Holding::Halted(info) => Some(info),
        }
    }
}

impl Pool {
    /// Whether the pool holds the name.
    pub(crate) fn holds(&self, name: &Name) -> bool
        ensures { result ≡ is_held name.now (table_pool self.now).known }
    {
        self.name.bytes() == name.bytes() || is_name(self.holding.new_name(), name)
    }

    /// Whether the pool uses the device.
    pub(crate) fn uses(&self, path: &DevPath) -> bool
        ensures { result ≡ is_used path.now (table_pool self.now).known }
    {
        self.holding.uses(path)
    }

    /// The same once more.
    pub(crate) fn copy(&self, alloc: Global) -> Result<Pool, NoMemory>
        ensures { IfOk result (λ copy. copy ≡ self.now) }
    {
        Ok(Pool {
            name: self.name.copy()?,
            serial: self.serial,
            holding: self.holding.copy(alloc)?,
        })
    }
}

/// Moves the paths behind those that there are, into the room that was made.
fn moved(room: Vec<DevPath>, paths: DevList) -> Vec<DevPath>
    requires { length room.items + length paths ≤ vec_capacity room }
    ensures items { result.items ≡ room.items ++ paths }
    ensures room { vec_capacity room ≤ vec_capacity result }
{
    let mut list = room;
    let mut paths = paths;
    while paths.len() > 0 {
        match list.push(paths.remove(0)) {
            Ok(()) => {}
            Err(_) => unreachable!(),
        }
    }
    list
}

impl Pool {
    /// The started pool, which holds a second name.
    pub(crate) fn hold(self, new: Name) -> Pool
        requires { info_held self.holding ≡ None }
        ensures { table_pool result ≡ holding new (table_pool self) }
    {
        let Pool {
            name,
            serial,
            holding,
        } = self;
        match holding {
            Holding::Started(devices, _) => Pool {
                name,
                serial,
                holding: Holding::Started(devices, Some(new)),
            },
            Holding::Halted(_) => unreachable!(),
        }
    }

    /// The started pool with more devices, in the room that was made.
    pub(crate) fn with_devices(self, room: Vec<DevPath>, devs: DevList) -> Pool
        requires started { info_held self.holding ≡ None }
        requires empty { room.items ≡ [] }
        requires room { length (devices_held self.holding) + length devs ≤ vec_capacity room }
        ensures { table_pool result ≡ with_devices devs (table_pool self) }
    {
        let Pool {
            name,
            serial,
            holding,
        } = self;
        match holding {
            Holding::Started(devices, new) => {
                let all = moved(moved(room, devices), devs);
                Pool {
                    name,
                    serial,
                    holding: Holding::Started(DevList::of(all), new),
                }
            }
            Holding::Halted(_) => unreachable!(),
        }
    }
}

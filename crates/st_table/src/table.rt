ghost use Rattle.std.specs.Prelude.{◌≡◌, ◌+◌, ◌<◌, ◌≤◌, ◌^◌, ◌↔◌, IsTrue, List, [], ◌++◌, map, length, true, false, is_some, Option, Some, None, IfSome, IfNone, IfOk, OnOk, OnErr, option_copied, option_map, vec_len, vec_capacity};
ghost use Rattle.std.specs.List.{AllByRecursion};
ghost use Rattle.st_units.specs.declared.rows.DevRow.{DevRow};
ghost use Rattle.st_model.specs.Look.{row_of};
ghost use Rattle.st_order.specs.Sorted.{IsRising};
ghost use Rattle.st_table.specs.Table.{TablePool, TableView, pool_named, named, knows, runs, is_taken, has_serial, IsFree, without, with_pool, with_instead, changed, next_above, new_pool, renamed, holding, with_devices, halted_as, woken, new_at, halted_at, devices_at, user_name, AreInOrder, shown};

use crate::halted::HaltedInfo;
use crate::pool::{Holding, Pool};
use crate::roster::Roster;
use crate::sorted::in_order;
use st_model::TableInfo;
use st_units::{DevList, DevPath, DevRows, Name, NoMemory, PoolSerial, Shared};
use std::alloc::Global;
use std::marker::Model;

/// How many devices a pool has at most.
const POOL_DEVICES: usize = 16;

/// The table of pools.
#[derive(Drop)]
pub struct Table {
    roster: Roster,
    next: u64,
    /// Room for the devices of a pool, where a change is prepared.
    room: Option<Vec<DevPath>>,
    spare: Option<Shared<TableInfo>>,
}

impl Model for Table {
    ghost use Rattle.std.specs.Prelude.{is_some};
    ghost use Rattle.std.specs.Prelude.{◌≡◌, ◌+◌, ◌<◌, ◌≤◌, ◌^◌, [], IfSome, vec_capacity};
    ghost use Rattle.st_table.specs.Table.{TableView, shown};

    ghost Value = { TableView };

    ghost view = { λ t. record { pools = t.roster.pools; devices = t.roster.devices; next = t.next; prepared = is_some t.room; spare = is_some t.spare } };

    ghost invariant = { λ t. (1 ≤ t.next) × (t.next ≤ 2 ^ 48 + 1) × IfSome t.room (λ room. (room.items ≡ []) × (16 ≤ vec_capacity room) × (0 < t.roster.room)) × IfSome t.spare (λ info. info ≡ shown t.roster.pools t.roster.devices t.next) };
}

impl Table {
    /// The table of a rack's devices, which stand in byte order of their paths, with no pool.
    pub fn make(alloc: Global, devs: &DevRows, next: u64) -> Result<Table, NoMemory>
        requires rising { IsRising (map (λ (row : DevRow). row.path) devs.now) }
        requires first { 1 ≤ next }
        requires last { next ≤ 2 ^ 48 + 1 }
        ensures { IfOk result (λ table. table ≡ record { pools = []; devices = devs.now; next = next; prepared = false; spare = false }) }
    {
        let roster = Roster::make(alloc, devs.items())?;
        Ok(Table {
            roster,
            next,
            room: None,
            spare: None,
        })
    }

    /// The same table once more, without what was prepared and without a spare.
    pub fn copy(&self, alloc: Global) -> Result<Table, NoMemory>
        ensures { IfOk result (λ table. table ≡ record self.now { prepared = false; spare = false }) }
    {
        let roster = self.roster.copy(alloc)?;
        Ok(Table {
            roster,
            next: self.next,
            room: None,
            spare: None,
        })
    }

    /// Takes the memory for one change. A refusal changes nothing.
    pub fn prepare(&mut self, alloc: Global) -> Result<(), NoMemory>
        ensures ok { OnOk result (self.new ≡ record self.old { prepared = true }) }
        ensures err { OnErr result (self.new ≡ self.old) }
    {
        let room = Vec::with_capacity(alloc, POOL_DEVICES)?;
        self.roster.reserve()?;
        self.room = Some(room);
        Ok(())
    }

    /// Makes a spare info, which shows the present table. A refusal changes nothing.
    pub fn refresh(&mut self, alloc: Global) -> Result<(), NoMemory>
        ensures ok { OnOk result (self.new ≡ record self.old { spare = true }) }
        ensures err { OnErr result (self.new ≡ self.old) }
    {
        let info = TableInfo {
            next: self.next,
            free: self.roster.free(alloc)?,
            stopped: self.roster.stopped(alloc)?,
        };
        match Shared::make(alloc, info) {
            Ok(info) => {
                self.spare = Some(info);
                Ok(())
            }
            Err(_) => Err(NoMemory),
        }
    }

    /// Hands the spare over, None where there is none. It takes no memory.
    pub fn info(&mut self) -> Option<Shared<TableInfo>>
        ensures there { is_some result ≡ self.old.spare }
        ensures shown { IfSome result (λ info. info ≡ shown self.old.pools self.old.devices self.old.next) }
        ensures spent { self.new ≡ record self.old { spare = false } }
    {
        self.spare.take()
    }

    /// The size of a device, None exactly where the rack doesn't have it.
    pub fn sectors(&self, dev: &DevPath) -> Option<u64>
        ensures { result ≡ option_map (λ (row : DevRow). row.sectors) (row_of dev.now self.now.devices) }
    {
        match self.roster.row(dev) {
            Some(row) => Some(row.sectors),
            None => None,
        }
    }

    /// The pool that uses a device of the rack, None exactly where it is free.
    pub fn user_of(&self, dev: &DevPath) -> Option<&Name>
        requires { is_some (row_of dev.now self.now.devices) ≡ true }
        ensures { option_copied result ≡ user_name dev.now self.now.pools }
    {
        match self.roster.user_of(dev) {
            Some(pool) => Some(&pool.name),
            None => None,
        }
    }

    /// Whether a pool holds the name: as its own, or as the one that a rename in flight gives it.
    pub fn held(&self, name: &Name) -> bool
        ensures { result ≡ is_taken name.now self.now.pools }
    {
        self.roster.is_taken(name)
    }

    /// Whether a pool but the one called `own` holds the name.
    pub fn held_beside(&self, own: &Name, name: &Name) -> bool
        ensures { result ≡ is_taken name.now (without own.now self.now.pools) }
    {
        self.roster.is_taken_beside(own, name)
    }

    /// Whether a pool has the name as its own.
    pub fn is_known(&self, name: &Name) -> bool
        ensures { result ≡ knows name.now self.now.pools }
    {
        self.roster.pool(name).is_some()
    }

    /// Whether the pool of this name is started.
    pub fn is_started(&self, name: &Name) -> bool
        ensures { result ≡ runs name.now self.now.pools }
    {
        match self.roster.pool(name) {
            Some(pool) => pool.holding.info().is_none(),
            None => false,
        }
    }

    /// Whether a known pool has the serial.
    pub fn has_serial(&self, serial: PoolSerial) -> bool
        ensures { result ≡ has_serial serial self.now.pools }
    {
        self.roster.has_serial(serial)
    }

    /// How many pools are known.
    pub fn pools(&self) -> usize
        ensures { result ≡ length self.now.pools }
    {
        self.roster.count()
    }

    /// The name of the known pool that has the serial.
    pub fn named(&self, serial: PoolSerial) -> Option<&Name>
        ensures { option_copied result ≡ named serial self.now.pools }
    {
        match self.roster.pool_with(serial) {
            Some(pool) => Some(&pool.name),
            None => None,
        }
    }

    /// Whether memory for a change is there.
    pub fn is_prepared(&self) -> bool
        ensures { result ≡ self.now.prepared }
    {
        self.room.is_some()
    }

    /// Whether none of the devices is one of the rack that a pool uses.
    pub fn are_free(&self, devs: &DevList) -> bool
        ensures { IsTrue result ↔ AllByRecursion (IsFree self.now.pools self.now.devices) devs.now }
    {
        self.roster.are_free(devs.items())
    }

    /// Whether none of the devices is one of the rack that a pool but the one called `own` uses.
    pub fn are_free_beside(&self, own: &Name, devs: &DevList) -> bool
        ensures { IsTrue result ↔ AllByRecursion (IsFree (without own.now self.now.pools) self.now.devices) devs.now }
    {
        self.roster.are_free_beside(own, devs.items())
    }

    /// How many devices the pool of this name uses, 0 where none has the name.
    pub fn devs_used(&self, name: &Name) -> usize
        ensures { result ≡ length (devices_at name.now self.now.pools) }
    {
        match self.roster.pool(name) {
            Some(pool) => pool.holding.devices().len(),
            None => 0,
        }
    }

    /// The serial that the next pool gets, from 1 to 2^48 + 1.
    pub fn next_serial(&self) -> u64
        ensures value { result ≡ self.now.next }
        ensures first { 1 ≤ result }
        ensures last { result ≤ 2 ^ 48 + 1 }
    {
        self.next
    }

    /// The name that the pool of this name holds besides its own.
    pub fn new_of(&self, name: &Name) -> Option<&Name>
        ensures { option_copied result ≡ new_at name.now self.now.pools }
    {
        match self.roster.pool(name) {
            Some(pool) => pool.holding.new_name(),
            None => None,
        }
    }

    /// What is kept of a pool that isn't started, None exactly where no such pool has the name.
    pub fn halted(&self, name: &Name) -> Option<&HaltedInfo>
        ensures { option_copied result ≡ halted_at name.now self.now.pools }
    {
        match self.roster.pool(name) {
            Some(pool) => pool.holding.info(),
            None => None,
        }
    }

    /// The devices in use by the pool of this name, in byte order of their paths.
    pub fn devs_of(&self, alloc: Global, name: &Name) -> Result<DevList, NoMemory>
        requires { knows name.now self.now.pools ≡ true }
        ensures { IfOk result (λ list. (pool : TablePool) → pool_named name.now self.now.pools ≡ Some pool → AreInOrder pool.known.devices list) }
    {
        match self.roster.pool(name) {
            Some(pool) => in_order(alloc, pool.holding.devices().items()),
            None => unreachable!(),
        }
    }

    /// A new pool on free devices.
    pub fn add(&mut self, name: Name, serial: PoolSerial, devs: DevList)
        requires prepared { self.old.prepared ≡ true }
        requires name { is_taken name self.old.pools ≡ false }
        requires serial { has_serial serial self.old.pools ≡ false }
        requires free { AllByRecursion (IsFree self.old.pools self.old.devices) devs }
        ensures { self.new ≡ record (changed self.old (with_pool (new_pool name serial devs) self.old.pools)) { next = next_above serial self.old.next } }
    {
        spend(&mut self.room, &mut self.spare);
        self.roster.put_in(Pool {
            name,
            serial,
            holding: Holding::Started(devs, None),
        });
        if self.next <= serial.number() {
            self.next = serial.number() + 1;
        }
    }

    /// Gives a pool another name.
    pub fn rename(&mut self, old: &Name, new: Name)
        requires prepared { self.old.prepared ≡ true }
        requires known { knows old.now self.old.pools ≡ true }
        requires name { is_taken new self.old.pools ≡ false }
        ensures { (pool : TablePool) → pool_named old.now self.old.pools ≡ Some pool → self.new ≡ changed self.old (with_instead old.now (renamed new pool) self.old.pools) }
    {
        spend(&mut self.room, &mut self.spare);
        let mut pool = self.roster.take_out(old);
        pool.name = new;
        self.roster.put_in(pool);
    }

    /// Lets a started pool hold a second name, which a rename in flight may give it.
    pub fn hold(&mut self, name: &Name, new: Name)
        requires prepared { self.old.prepared ≡ true }
        requires started { runs name.now self.old.pools ≡ true }
        requires name { is_taken new self.old.pools ≡ false }
        ensures { (pool : TablePool) → pool_named name.now self.old.pools ≡ Some pool → self.new ≡ changed self.old (with_instead name.now (holding new pool) self.old.pools) }
    {
        spend(&mut self.room, &mut self.spare);
        let pool = self.roster.take_out(name);
        self.roster.put_in(pool.hold(new));
    }

    /// Gives free devices to a started pool, behind those that it uses.
    pub fn take_devs(&mut self, name: &Name, devs: DevList)
        requires prepared { self.old.prepared ≡ true }
        requires started { runs name.now self.old.pools ≡ true }
        requires few { (pool : TablePool) → pool_named name.now self.old.pools ≡ Some pool → length pool.known.devices + length devs ≤ 16 }
        requires free { AllByRecursion (IsFree self.old.pools self.old.devices) devs }
        ensures { (pool : TablePool) → pool_named name.now self.old.pools ≡ Some pool → self.new ≡ changed self.old (with_instead name.now (with_devices devs pool) self.old.pools) }
    {
        let room = self.room.take();
        spend(&mut self.room, &mut self.spare);
        match room {
            Some(room) => {
                let pool = self.roster.take_out(name);
                self.roster.put_in(pool.with_devices(room, devs));
            }
            None => unreachable!(),
        }
    }

    /// The pool is no longer known: its devices are free, and its names aren't held.
    pub fn drop_pool(&mut self, name: &Name)
        requires prepared { self.old.prepared ≡ true }
        requires known { knows name.now self.old.pools ≡ true }
        ensures { self.new ≡ changed self.old (without name.now self.old.pools) }
    {
        spend(&mut self.room, &mut self.spare);
        let _gone = self.roster.take_out(name);
    }

    /// The pool isn't started, and just these devices and this new name are its own.
    pub fn halt(&mut self, name: &Name, halted: HaltedInfo)
        requires prepared { self.old.prepared ≡ true }
        requires known { knows name.now self.old.pools ≡ true }
        requires new { IfSome halted.new (λ new. is_taken new (without name.now self.old.pools) ≡ false) }
        requires free { AllByRecursion (IsFree (without name.now self.old.pools) self.old.devices) halted.devs }
        ensures { (pool : TablePool) → pool_named name.now self.old.pools ≡ Some pool → self.new ≡ changed self.old (with_instead name.now (halted_as halted pool) self.old.pools) }
    {
        spend(&mut self.room, &mut self.spare);
        let mut pool = self.roster.take_out(name);
        pool.holding = Holding::Halted(halted);
        self.roster.put_in(pool);
    }

    /// The pool called `old` is started, with this name and just these devices.
    pub fn wake(&mut self, old: &Name, name: Name, devs: DevList)
        requires prepared { self.old.prepared ≡ true }
        requires known { knows old.now self.old.pools ≡ true }
        requires name { is_taken name (without old.now self.old.pools) ≡ false }
        requires free { AllByRecursion (IsFree (without old.now self.old.pools) self.old.devices) devs }
        ensures { (pool : TablePool) → pool_named old.now self.old.pools ≡ Some pool → self.new ≡ changed self.old (with_instead old.now (woken name devs pool) self.old.pools) }
    {
        spend(&mut self.room, &mut self.spare);
        let mut pool = self.roster.take_out(old);
        pool.name = name;
        pool.holding = Holding::Started(devs, None);
        self.roster.put_in(pool);
    }
}

/// A change uses up what was prepared, and the spare would show what was before it.
fn spend(room: &mut Option<Vec<DevPath>>, spare: &mut Option<Shared<TableInfo>>)
    ensures room { room.new ≡ None }
    ensures spare { spare.new ≡ None }
{
    *room = None;
    *spare = None;
}

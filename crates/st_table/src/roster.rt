ghost use Rattle.std.specs.Prelude.{◌≡◌, ◌+◌, ◌<◌, ◌≤◌, ◌&&◌, not, length, List, [], map, ◌==◌, filter, filter_map, is_none, true, false, is_some, bytes_eq, find, Option, Some, None, IfOk, OnOk, OnErr, option_copied, option_map, vec_len, vec_capacity};
ghost use Rattle.std.specs.List.{AllByRecursion, list_any, list_all};
ghost use Rattle.st_units.specs.declared.rows.DevRow.{DevRow};
ghost use Rattle.st_model.specs.Look.{is_name_of, row_of};
ghost use Rattle.st_model.specs.OnTable.{is_held, user_of};
ghost use Rattle.st_model.specs.Parts.{free_of, is_used};
ghost use Rattle.st_order.specs.Sorted.{IsRising};
ghost use Rattle.st_table.specs.Table.{TablePool, pool_named, pool_with, knows, names_of, is_taken, has_serial, IsFree, without, with_pool, stopped_row};
ghost use Rattle.st_table.specs.inner.Sound.{devices_held, new_held, is_user, table_pool, row_in, path_in, marked, user_among, is_free};

use crate::device::{Device, mark};
use crate::pool::{Pool, is_name};
use st_model::{StoppedList, StoppedRow};
use st_order::search;
use st_units::{DevList, DevPath, DevRow, DevRows, Name, NoMemory, PoolSerial};
use std::alloc::Global;
use std::marker::Model;

/// The known pools in byte order of their names, and the devices of the rack in byte order of
/// their paths, each marked with the pool that uses it.
#[derive(Drop)]
pub(crate) struct Roster {
    pools: Vec<Pool>,
    devices: Vec<Device>,
}

impl Model for Roster {
    ghost use Rattle.std.specs.Prelude.{map, ◌-◌, vec_len, vec_capacity};
    ghost use Rattle.st_table.specs.inner.Sound.{RosterView, IsSound, row_in, table_pool};

    ghost Value = { RosterView };

    ghost view = { λ r. record { pools = map table_pool r.pools.items; devices = map row_in r.devices.items; room = vec_capacity r.pools - vec_len r.pools } };

    ghost invariant = { λ r. IsSound r.devices.items (map table_pool r.pools.items) };
}

/// The rows, used by no pool.
fn unused(alloc: Global, rows: &[DevRow]) -> Result<Vec<Device>, NoMemory>
    ensures rows { IfOk result (λ devices. map row_in devices.items ≡ rows.now) }
    ensures unused { IfOk result (λ devices. AllByRecursion (λ (device : _). device.user ≡ None) devices.items) }
{
    let mut devices = Vec::new(alloc);
    for row in rows {
        devices.push(Device {
            row: row.copy()?,
            user: None,
        })?;
    }
    Ok(devices)
}

fn copy_devices(alloc: Global, devices: &[Device]) -> Result<Vec<Device>, NoMemory>
    ensures { IfOk result (λ copy. copy.items ≡ devices.now) }
{
    let mut copy = Vec::new(alloc);
    for device in devices {
        copy.push(Device {
            row: device.row.copy()?,
            user: device.user,
        })?;
    }
    Ok(copy)
}

fn copy_pools(alloc: Global, pools: &[Pool]) -> Result<Vec<Pool>, NoMemory>
    ensures { IfOk result (λ copy. copy.items ≡ pools.now) }
{
    let mut copy = Vec::new(alloc);
    for pool in pools {
        copy.push(pool.copy(alloc)?)?;
    }
    Ok(copy)
}

fn of_serial<'a>(pools: &'a [Pool], serial: u64) -> Option<&'a Pool>
    ensures { option_copied result ≡ find (λ (pool : _). pool.serial == serial) pools.now }
{
    pools.iter().find(|pool| pool.serial.number() == serial)
}

/// The pool that the mark tells.
fn user_among<'a>(pools: &'a [Pool], user: Option<u64>) -> Option<&'a Pool>
    ensures { option_map table_pool (option_copied result) ≡ user_among user (map table_pool pools.now) }
{
    match user {
        Some(user) => of_serial(pools, user),
        None => None,
    }
}

/// The paths of the devices that aren't marked.
fn unmarked(alloc: Global, devices: &[Device]) -> Result<DevList, NoMemory>
    ensures { IfOk result (λ list. list ≡ map path_in (filter (λ (device : _). is_none device.user) devices.now)) }
{
    let mut list = DevList::make(alloc);
    for device in devices {
        if device.user.is_none() {
            list.push(device.row.path.copy()?)?;
        }
    }
    Ok(list)
}

fn has_new_name(pools: &[Pool], name: &Name) -> bool
    ensures { result ≡ list_any (λ (pool : _). is_name_of name.now (new_held pool.holding)) pools.now }
{
    pools
        .iter()
        .any(|pool| is_name(pool.holding.new_name(), name))
}

fn taken_beside(pools: &[Pool], own: &Name, name: &Name) -> bool
    ensures { result ≡ list_any (λ (pool : _). not (bytes_eq pool.name own.now) && is_held name.now (table_pool pool).known) pools.now }
{
    pools.iter().any(|pool| pool.name.bytes() != own.bytes() && pool.holds(name))
}

fn used(pools: &[Pool], path: &DevPath) -> bool
    ensures { result ≡ list_any (λ (pool : _). is_used path.now (table_pool pool).known) pools.now }
{
    pools.iter().any(|pool| pool.uses(path))
}

fn used_beside(pools: &[Pool], own: &Name, path: &DevPath) -> bool
    ensures { result ≡ list_any (λ (pool : _). not (bytes_eq pool.name own.now) && is_used path.now (table_pool pool).known) pools.now }
{
    pools
        .iter()
        .any(|pool| pool.name.bytes() != own.bytes() && pool.uses(path))
}

/// What a report shows of the pool, where it isn't started.
fn stopped_row(pool: &Pool) -> Result<Option<StoppedRow>, NoMemory>
    ensures { IfOk result (λ row. row ≡ stopped_row (table_pool pool.now)) }
{
    match pool.holding.info() {
        Some(info) => Ok(Some(StoppedRow {
            name: pool.name.copy()?,
            serial: pool.serial,
            mode: info.mode.shown(),
        })),
        None => Ok(None),
    }
}

fn stopped_rows(alloc: Global, pools: &[Pool]) -> Result<StoppedList, NoMemory>
    ensures { IfOk result (λ rows. rows ≡ filter_map stopped_row (map table_pool pools.now)) }
{
    let mut rows = StoppedList::make(alloc);
    for pool in pools {
        if let Some(row) = stopped_row(pool)? {
            rows.push(row)?;
        }
    }
    Ok(rows)
}

impl Roster {
    /// No pool, and these devices.
    pub(crate) fn make(alloc: Global, rows: &[DevRow]) -> Result<Roster, NoMemory>
        requires { IsRising (map (λ (row : DevRow). row.path) rows.now) }
        ensures pools { IfOk result (λ roster. roster.pools ≡ []) }
        ensures devices { IfOk result (λ roster. roster.devices ≡ rows.now) }
    {
        Ok(Roster {
            pools: Vec::new(alloc),
            devices: unused(alloc, rows)?,
        })
    }

    /// The same once more.
    pub(crate) fn copy(&self, alloc: Global) -> Result<Roster, NoMemory>
        ensures pools { IfOk result (λ roster. roster.pools ≡ self.now.pools) }
        ensures devices { IfOk result (λ roster. roster.devices ≡ self.now.devices) }
    {
        Ok(Roster {
            pools: copy_pools(alloc, &self.pools)?,
            devices: copy_devices(alloc, &self.devices)?,
        })
    }

    /// Makes room for one pool more.
    pub(crate) fn reserve(&mut self) -> Result<(), NoMemory>
        ensures pools { self.new.pools ≡ self.old.pools }
        ensures devices { self.new.devices ≡ self.old.devices }
        ensures room { OnOk result (0 < self.new.room) }
        ensures kept { self.old.room ≤ self.new.room }
    {
        self.pools.reserve(1)?;
        Ok(())
    }

    /// How many pools are known.
    pub(crate) fn count(&self) -> usize
        ensures { result ≡ length self.now.pools }
    {
        self.pools.len()
    }

    /// The pool of this name.
    pub(crate) fn pool(&self, name: &Name) -> Option<&Pool>
        ensures { option_map table_pool (option_copied result) ≡ pool_named name.now self.now.pools }
    {
        match search(&self.pools, name.bytes()) {
            Ok(i) => Some(&self.pools[i]),
            Err(_) => None,
        }
    }

    /// The device's row.
    pub(crate) fn row(&self, path: &DevPath) -> Option<&DevRow>
        ensures { option_copied result ≡ row_of path.now self.now.devices }
    {
        match search(&self.devices, path.bytes()) {
            Ok(i) => Some(&self.devices[i].row),
            Err(_) => None,
        }
    }

    /// The pool that uses a device of the rack.
    pub(crate) fn user_of(&self, path: &DevPath) -> Option<&Pool>
        requires { is_some (row_of path.now self.now.devices) ≡ true }
        ensures { option_map (λ pool. (table_pool pool).known) (option_copied result) ≡ user_of path.now (names_of self.now.pools) }
    {
        match search(&self.devices, path.bytes()) {
            Ok(i) => user_among(&self.pools, self.devices[i].user),
            Err(_) => None,
        }
    }

    /// Whether a pool holds the name.
    pub(crate) fn is_taken(&self, name: &Name) -> bool
        ensures { result ≡ is_taken name.now self.now.pools }
    {
        self.pool(name).is_some() || has_new_name(&self.pools, name)
    }

    /// The pool of this serial.
    pub(crate) fn pool_with(&self, serial: PoolSerial) -> Option<&Pool>
        ensures { option_map table_pool (option_copied result) ≡ pool_with serial self.now.pools }
    {
        of_serial(&self.pools, serial.number())
    }

    /// Whether a pool has the serial.
    pub(crate) fn has_serial(&self, serial: PoolSerial) -> bool
        ensures { result ≡ has_serial serial self.now.pools }
    {
        of_serial(&self.pools, serial.number()).is_some()
    }

    /// Whether a pool but the one of that name holds the name.
    pub(crate) fn is_taken_beside(&self, own: &Name, name: &Name) -> bool
        ensures { result ≡ is_taken name.now (without own.now self.now.pools) }
    {
        taken_beside(&self.pools, own, name)
    }

    fn is_free(&self, path: &DevPath) -> bool
        ensures { result ≡ is_free self.now.pools self.now.devices path.now }
    {
        match self.row(path) {
            Some(_) => !used(&self.pools, path),
            None => true,
        }
    }

    fn is_free_beside(&self, own: &Name, path: &DevPath) -> bool
        ensures { result ≡ is_free (without own.now self.now.pools) self.now.devices path.now }
    {
        match self.row(path) {
            Some(_) => !used_beside(&self.pools, own, path),
            None => true,
        }
    }

    /// Whether none of the devices is one of the rack that a pool uses.
    pub(crate) fn are_free(&self, paths: &[DevPath]) -> bool
        ensures { result ≡ list_all (is_free self.now.pools self.now.devices) paths.now }
    {
        paths.iter().all(|path| self.is_free(path))
    }

    /// Whether none of the devices is one of the rack that a pool but the one of that name uses.
    pub(crate) fn are_free_beside(&self, own: &Name, paths: &[DevPath]) -> bool
        ensures { result ≡ list_all (is_free (without own.now self.now.pools) self.now.devices) paths.now }
    {
        paths.iter().all(|path| self.is_free_beside(own, path))
    }

    /// The devices that no pool uses, in byte order of their paths.
    pub(crate) fn free(&self, alloc: Global) -> Result<DevList, NoMemory>
        ensures { IfOk result (λ list. list ≡ free_of (names_of self.now.pools) self.now.devices) }
    {
        unmarked(alloc, &self.devices)
    }

    /// What a report shows of the pools that aren't started.
    pub(crate) fn stopped(&self, alloc: Global) -> Result<StoppedList, NoMemory>
        ensures { IfOk result (λ rows. rows ≡ filter_map stopped_row self.now.pools) }
    {
        stopped_rows(alloc, &self.pools)
    }

    /// Takes the pool of this name out; its devices are then free.
    pub(crate) fn take_out(&mut self, name: &Name) -> Pool
        requires { knows name.now self.old.pools ≡ true }
        ensures found { pool_named name.now self.old.pools ≡ Some (table_pool result) }
        ensures called { result.name ≡ name.now }
        ensures pools { self.new.pools ≡ without name.now self.old.pools }
        ensures devices { self.new.devices ≡ self.old.devices }
        ensures room { 0 < self.new.room }
        ensures name { knows name.now self.new.pools ≡ false }
        ensures serial { has_serial result.serial self.new.pools ≡ false }
        ensures free { AllByRecursion (IsFree self.new.pools self.new.devices) (devices_held result.holding) }
    {
        match search(&self.pools, name.bytes()) {
            Ok(i) => {
                let pool = self.pools.remove(i);
                mark(&mut self.devices, pool.holding.devices().items(), None);
                pool
            }
            Err(_) => unreachable!(),
        }
    }

    /// Puts a pool in, into the room that was made; it then uses its devices.
    pub(crate) fn put_in(&mut self, pool: Pool)
        requires room { 0 < self.old.room }
        requires name { knows pool.name self.old.pools ≡ false }
        requires serial { has_serial pool.serial self.old.pools ≡ false }
        requires free { AllByRecursion (IsFree self.old.pools self.old.devices) (devices_held pool.holding) }
        ensures pools { self.new.pools ≡ with_pool (table_pool pool) self.old.pools }
        ensures devices { self.new.devices ≡ self.old.devices }
    {
        match search(&self.pools, pool.name.bytes()) {
            Ok(_) => unreachable!(),
            Err(i) => {
                mark(
                    &mut self.devices,
                    pool.holding.devices().items(),
                    Some(pool.serial.number()),
                );
                match self.pools.insert(i, pool) {
                    Ok(()) => {}
                    Err(_) => unreachable!(),
                }
            }
        }
    }
}

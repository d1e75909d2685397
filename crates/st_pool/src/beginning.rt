ghost use Rattle.std.specs.Prelude.{◌≡◌, IfOk};
ghost use Rattle.st_model.specs.declared.call.Call.TheVariants.{CreatePool};
ghost use Rattle.st_model.specs.Shown.{pool_info};
ghost use Rattle.st_model.specs.Sums.{AreSmall};
ghost use Rattle.st_model.specs.steps.CreatePool.{new_pool};
ghost use Rattle.st_rack.specs.Calls.{size_in};
ghost use Rattle.st_making.specs.First.{AreDataRows};
ghost use Rattle.st_pool.specs.inner.Makings.{IsBegun, IsBroken, IsMaking, broken_books, broken_info, new_rows};
ghost use Rattle.st_pool.specs.inner.Plans.{AreTwins};

use crate::planning::{Twins, twice};
use st_books::Books;
use st_deltalog::Tail;
use st_making::{First, first_books, first_flex, spell_first};
use st_model::{Call, FsInfoList, PoolInfo, PoolState, ShownMode, making, shared_info};
use st_poolrec::PoolRec;
use st_rack::Rack;
use st_units::{DevList, DevPath, DevRow, DevRows, Name, NoMemory, PoolSerial, SegList, Tier};
use std::alloc::Global;

/// A pool whose making failed, but for its devices.
#[derive(Drop)]
pub struct Broken {
    pub books: Books,
    /// The call in flight.
    pub call: Call,
    pub infos: Twins,
}

/// A pool with what its first commit takes.
#[derive(Drop)]
pub struct Begun {
    pub books: Books,
    pub first: First,
    pub infos: Twins,
}

/// What making a pool takes before its first device call.
#[derive(Drop)]
pub struct Making {
    pub begun: Begun,
    /// The pool where a device fails.
    pub broken: Broken,
}

fn size_on<R: Rack>(rack: &R, dev: &DevPath) -> u64
    ensures { result ≡ size_in (R.devs rack.now) dev.now }
{
    match rack.sectors(dev) {
        Some(sectors) => sectors,
        None => 0,
    }
}

/// The rows of a new pool on these devices of a rack.
fn new_rows<R: Rack>(alloc: Global, rack: &R, devs: &[DevPath]) -> Result<DevRows, NoMemory>
    ensures { IfOk result (λ rows. rows ≡ new_rows (R.devs rack.now) devs.now) }
{
    let mut rows = DevRows::make(alloc);
    for path in devs {
        rows.push(DevRow {
            path: path.copy()?,
            tier: Tier::DataTier,
            sectors: size_on(rack, path),
        })?;
    }
    Ok(rows)
}

/// Infos of a new pool.
fn new_infos(
    alloc: Global,
    serial: PoolSerial,
    name: &Name,
    rows: &DevRows,
) -> Result<Twins, NoMemory>
    requires { AreSmall rows.now }
    ensures { IfOk result (AreTwins (pool_info (new_pool serial name.now rows.now))) }
{
    match planned(alloc, serial, name, rows) {
        Ok(pool) => infos_of(alloc, &pool),
        Err(_) => Err(NoMemory),
    }
}

/// A new pool, as the model has it.
fn planned(
    alloc: Global,
    serial: PoolSerial,
    name: &Name,
    rows: &DevRows,
) -> Result<PoolState, NoMemory>
    ensures { IfOk result (λ pool. pool ≡ new_pool serial name.now rows.now) }
{
    let rows = rows.copy(alloc)?;
    Ok(making::new_pool(alloc, serial, name.copy()?, rows))
}

/// Infos of this pool.
pub fn infos_of(alloc: Global, pool: &PoolState) -> Result<Twins, NoMemory>
    requires { AreSmall pool.now.devices }
    ensures { IfOk result (AreTwins (pool_info pool.now)) }
{
    let own = shared_info(alloc, pool)?;
    let spare = own.copy()?;
    Ok(Twins { own, spare })
}

/// Infos of a pool whose making failed.
fn broken_infos(alloc: Global, serial: PoolSerial, name: &Name) -> Result<Twins, NoMemory>
    ensures { IfOk result (AreTwins (broken_info serial name.now)) }
{
    let shown = PoolInfo {
        serial,
        name: name.copy()?,
        mode: ShownMode::Down,
        devs: DevRows::make(alloc),
        filesystems: FsInfoList::make(alloc),
        fs_limit: 0,
        overprovisioning: false,
        room: 0,
        allocated: 0,
        used: 0,
        cache: None,
    };
    twice(alloc, shown)
}

/// The books of a pool of which no commit was made.
fn broken_books(alloc: Global, serial: PoolSerial, name: Name) -> Books
    ensures { result ≡ broken_books serial name }
{
    Books {
        rec: PoolRec {
            serial: serial.number(),
            gone: false,
            overprovisioning: false,
            version2: true,
            fs_limit: 0,
            name,
            devs: DevRows::make(alloc),
            segments: SegList::make(alloc),
        },
        flex: first_flex(alloc, &serial),
        generation: 0,
        tail: Tail { slot: 0, next: 0 },
        has_committed: false,
    }
}

/// The pool where a device fails.
fn plan_broken(
    alloc: Global,
    serial: PoolSerial,
    name: &Name,
    devs: &DevList,
) -> Result<Broken, NoMemory>
    ensures { IfOk result (IsBroken serial name.now devs.now) }
{
    let infos = broken_infos(alloc, serial, name)?;
    let call = Call::CreatePool {
        name: name.copy()?,
        devices: devs.copy(alloc)?,
    };
    Ok(Broken {
        books: broken_books(alloc, serial, name.copy()?),
        call,
        infos,
    })
}

/// A new pool on devices with these rows.
fn plan_first(
    alloc: Global,
    serial: PoolSerial,
    name: Name,
    rows: DevRows,
) -> Result<Begun, NoMemory>
    requires rows { AreDataRows rows }
    requires small { AreSmall rows }
    ensures { IfOk result (IsBegun serial name rows) }
{
    let infos = new_infos(alloc, serial, &name, &rows)?;
    let books = first_books(alloc, serial, name, rows)?;
    match spell_first(alloc, &books) {
        Ok(first) => Ok(Begun {
            books,
            first,
            infos,
        }),
        Err(_) => Err(NoMemory),
    }
}

/// Makes the making of a pool ready. It calls no device.
pub fn ready<R: Rack>(
    alloc: Global,
    serial: PoolSerial,
    name: Name,
    devs: &DevList,
    rack: &R,
) -> Result<Making, NoMemory>
    requires rows { AreDataRows (new_rows (R.devs rack.now) devs.now) }
    requires small { AreSmall (new_rows (R.devs rack.now) devs.now) }
    ensures { IfOk result (IsMaking serial name devs.now (R.devs rack.now)) }
{
    let broken = plan_broken(alloc, serial, &name, devs)?;
    let rows = new_rows(alloc, rack, devs.items())?;
    match plan_first(alloc, serial, name, rows) {
        Ok(begun) => Ok(Making { begun, broken }),
        Err(_) => Err(NoMemory),
    }
}

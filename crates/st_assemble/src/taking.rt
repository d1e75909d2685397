ghost use Rattle.std.specs.Prelude.{◌≡◌, ◌<◌, ℕ, OnOk};
ghost use Rattle.std.specs.List.{list_any};
ghost use Rattle.st_rack.specs.Device.{Image};
ghost use Rattle.st_rack.specs.Calls.{Devices};
ghost use Rattle.st_image.specs.Rack.{IsSerial, IsForeign};
ghost use Rattle.st_assemble.specs.inner.SoFar.{PoolsUpTo, GoneUpTo, has_name};
ghost use Rattle.st_assemble.specs.inner.Told.{IsTold, IsKnownRow, NoneBetween};

use crate::fault::FoundFault;
use crate::told::Told;
use st_judge::{FoundList, FoundRow, GoneList};
use st_limits::MAX_POOLS;

/// What the devices of a rack stand for.
#[derive(Drop)]
pub struct Found {
    /// The known pools, in order of their serials.
    pub pools: FoundList,
    /// Those whose newest record says that they are gone, in order of their serials.
    pub gone: GoneList,
    /// The serial for the next pool.
    pub next: u64,
}

/// Puts in what is told of the pool of the next serial.
pub fn put_in(found: &mut Found, told: Told) -> Result<(), FoundFault>
    ensures pools { OnOk result ((devs : Devices) (c : Image) (last p : ℕ) → IsSerial p → last < p → NoneBetween devs c last p → IsTold p devs c told → PoolsUpTo devs c last found.old.pools → PoolsUpTo devs c p found.new.pools) }
    ensures gone { OnOk result ((devs : Devices) (c : Image) (last p : ℕ) → IsSerial p → last < p → NoneBetween devs c last p → IsTold p devs c told → GoneUpTo devs c last found.old.gone → GoneUpTo devs c p found.new.gone) }
    ensures foreign { (n : ℕ) → result ≡ Err (FoundFault.Foreign n) → (devs : Devices) (c : Image) (last p : ℕ) → IsSerial p → last < p → NoneBetween devs c last p → IsTold p devs c told → PoolsUpTo devs c last found.old.pools → IsForeign devs c n }
    ensures fault { result ≡ Err FoundFault.Fault → ⊥ }
    ensures next { found.new.next ≡ found.old.next }
{
    match told {
        Told::Nothing => Ok(()),
        Told::Gone(row) => {
            found.gone.push(row)?;
            Ok(())
        }
        Told::Known(row) => put_pool(&mut found.pools, row),
    }
}

/// Puts a known pool last, if it may be beside those of lower serials.
fn put_pool(pools: &mut FoundList, row: FoundRow) -> Result<(), FoundFault>
    ensures ok { OnOk result ((devs : Devices) (c : Image) (last p : ℕ) → IsSerial p → last < p → NoneBetween devs c last p → IsKnownRow p devs c row → PoolsUpTo devs c last pools.old → PoolsUpTo devs c p pools.new) }
    ensures foreign { (n : ℕ) → result ≡ Err (FoundFault.Foreign n) → (devs : Devices) (c : Image) (last p : ℕ) → IsSerial p → last < p → NoneBetween devs c last p → IsKnownRow p devs c row → PoolsUpTo devs c last pools.old → IsForeign devs c n }
    ensures fault { result ≡ Err FoundFault.Fault → ⊥ }
{
    let serial = row.serial.number();
    if pools.len() as u64 >= MAX_POOLS {
        return Err(FoundFault::Foreign(serial));
    }
    if has_name(pools.items(), &row) {
        return Err(FoundFault::Foreign(serial));
    }
    pools.push(row)?;
    Ok(())
}

/// Whether one of the pools has the name.
fn has_name(pools: &[FoundRow], row: &FoundRow) -> bool
    ensures { result ≡ has_name row.now pools.now }
{
    pools
        .iter()
        .any(|pool| pool.name.bytes() == row.name.bytes())
}

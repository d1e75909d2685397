ghost use Rattle.std.specs.Prelude.{◌≡◌, ◌+◌, ◌≤◌, ◌++◌, ◌∷◌, [], length, map, is_some, None, IfOk, OnOk, OnErr, if◌then◌else◌};
ghost use Rattle.std.specs.List.{IsDistinct};
ghost use Rattle.std.specs.Str.{bytes_eq};
ghost use Rattle.st_rack.specs.Calls.{sectors_of};
ghost use Rattle.st_rack.specs.Parts.{IsSame, Splits};
ghost use Rattle.st_dividing.specs.Divided.{AreRowsApart, AreTold, Divides, found_as, path_of_row, present_of};

use st_judge::{FoundList, FoundRow};
use st_pool::Halted;
use st_rack::Rack;
use st_units::{DevList, DevPath, DevRow, NoMemory, RoomyList};
use std::alloc::Global;

/// Takes the devices of each pool that was found out of the rack, as a rack of their own, and puts the pool last. After a refusal the
/// first of them are there.
pub fn divide<R: Rack>(
    alloc: Global,
    rack: &mut R,
    pools: &FoundList,
    parts: &mut RoomyList<Halted<R>>,
) -> Result<(), NoMemory>
    requires rows { AreRowsApart (R.devs rack.old) pools.now }
    requires none { parts.old.items ≡ [] }
    requires room { length pools.now ≤ parts.old.room }
    ensures divides { Divides R.devs R.moment R.state_at R.faults R.spare rack.old rack.new parts.new.items }
    ensures told { OnOk result (AreTold R.devs R.moment R.state_at R.faults R.spare rack.old pools.now parts.new.items) }
    ensures room { parts.old.room ≤ parts.new.room + length parts.new.items }
{
    for i in 0..pools.len() {
        let part = part_off(alloc, rack, pools.at(i))?;
        parts.put(part);
    }
    Ok(())
}

/// Takes the pool's devices that are there out of the rack.
fn part_off<R: Rack>(alloc: Global, rack: &mut R, row: &FoundRow) -> Result<Halted<R>, NoMemory>
    requires { IsDistinct bytes_eq (map path_of_row row.now.devs) }
    ensures parts { IfOk result (λ h. Splits R.devs R.moment R.state_at (present_of (R.devs rack.old) row.now.devs) rack.old rack.new h.rack) }
    ensures is { IfOk result (λ h. h ≡ found_as (R.devs rack.old) row.now h.rack) }
    ensures places { IfOk result (λ h. R.spare rack.old + length (R.devs h.rack) ≤ R.spare rack.new) }
    ensures none_failed { IfOk result (λ h. R.faults h.rack ≡ 0) }
    ensures refused { OnErr result (IsSame R.devs R.moment R.state_at R.reads rack.old rack.new) }
    ensures no_fewer { R.spare rack.old ≤ R.spare rack.new }
    ensures faults { R.faults rack.new ≡ R.faults rack.old }
{
    let list = present_paths(alloc, rack, row.devs.items())?;
    let part = rack.split_off(alloc, &list)?;
    Ok(Halted::found(row.serial, list, part))
}

/// The paths of these rows that the rack has.
fn present_paths<R: Rack>(alloc: Global, rack: &R, rows: &[DevRow]) -> Result<DevList, NoMemory>
    ensures { IfOk result (λ list. list ≡ present_of (R.devs rack.now) rows.now) }
{
    let mut list = DevList::make(alloc);
    for i in 0..rows.len() {
        put_present(rack, &mut list, &rows[i].path)?;
    }
    Ok(list)
}

/// Puts the path last, if the rack has it.
fn put_present<R: Rack>(rack: &R, list: &mut DevList, path: &DevPath) -> Result<(), NoMemory>
    ensures { OnOk result (list.new ≡ list.old ++ (if is_some (sectors_of (R.devs rack.now) path.now) then path.now ∷ [] else [])) }
{
    if rack.sectors(path).is_none() {
        return Ok(());
    }
    match list.push(path.copy()?) {
        Ok(()) => Ok(()),
        Err((_, NoMemory)) => Err(NoMemory),
    }
}

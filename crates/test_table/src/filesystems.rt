// The filesystems of a pool: order of creation, look-ups, changes, and what becomes of origins.
ghost use Rattle.std.specs.Prelude.{◌≡◌, ℕ, ◌<◌, true, false, IfOk, OnOk};
ghost use Rattle.std.specs.List.{AllByRecursion};
ghost use Rattle.st_units.specs.declared.rows.FsRow.{FsRow};
ghost use Rattle.st_fstable.specs.Rows.{is_there, is_called};

use st_fstable::FsTable;
use st_units::{FsRow, Name, NoMemory};
use std::alloc::Global;
use std::test::Fail;

fn filesystem(alloc: Global, serial: u64, name: &[u8], origin: Option<u64>) -> Result<FsRow, Fail>
    ensures { IfOk result (λ row. row.serial ≡ serial) }
{
    Ok(FsRow {
        serial,
        name: Name::read(alloc, name)?,
        size: 32_768,
        limit: None,
        origin,
        merge: false,
    })
}

fn is_there(table: &FsTable, serial: u64) -> bool
    ensures { result ≡ true → is_there serial table.now ≡ true }
{
    match table.row(serial) {
        Some(_) => true,
        None => false,
    }
}

fn is_new(table: &FsTable, name: &Name) -> bool
    ensures { result ≡ true → is_called name.now table.now ≡ false }
{
    match table.find(name) {
        Some(_) => false,
        None => true,
    }
}

fn put(table: &mut FsTable, row: FsRow) -> Result<(), NoMemory>
    requires serial { AllByRecursion (λ (other : FsRow). other.serial < row.serial) table.old }
    requires name { is_called row.name table.old ≡ false }
    ensures { OnOk result ((next : ℕ) → row.serial < next → AllByRecursion (λ (other : FsRow). other.serial < next) table.new) }
{
    table.insert(row)?;
    Ok(())
}

/// Puts a filesystem in whose name is free.
fn insert(table: &mut FsTable, row: FsRow) -> Result<(), Fail>
    requires { AllByRecursion (λ (other : FsRow). other.serial < row.serial) table.old }
    ensures { OnOk result ((next : ℕ) → row.serial < next → AllByRecursion (λ (other : FsRow). other.serial < next) table.new) }
{
    if !is_new(table, &row.name) {
        return Err("the name is taken".into());
    }
    put(table, row)?;
    Ok(())
}

/// `c`, its snapshot `b`, and `a`, a snapshot of `b`: the names fall as the serials rise.
fn three(alloc: Global) -> Result<FsTable, Fail> {
    let mut table = FsTable::make(alloc);
    let oldest = filesystem(alloc, 1, b"c", None)?;
    insert(&mut table, oldest)?;
    let middle = filesystem(alloc, 2, b"b", Some(1))?;
    insert(&mut table, middle)?;
    let youngest = filesystem(alloc, 4, b"a", Some(2))?;
    insert(&mut table, youngest)?;
    Ok(table)
}

/// The serials in order of creation.
fn serials(alloc: Global, table: &FsTable) -> Result<Vec<u64>, NoMemory> {
    let mut serials = Vec::new(alloc);
    for i in 0..table.len() {
        serials.push(table.at(i).serial)?;
    }
    Ok(serials)
}

fn serial_named(alloc: Global, table: &FsTable, name: &[u8]) -> Result<Option<u64>, Fail> {
    Ok(table.find(&Name::read(alloc, name)?))
}

/// Size, limit, origin and mark.
fn state_of(table: &FsTable, serial: u64) -> Option<(u64, Option<u64>, Option<u64>, bool)> {
    match table.row(serial) {
        Some(row) => Some((row.size, row.limit, row.origin, row.merge)),
        None => None,
    }
}

#[test]
fn filesystems_stand_in_order_of_creation(rt: HostRuntime) -> Result<(), Fail> {
    let alloc = rt.alloc();
    let table = three(alloc)?;
    assert_eq!(rt; serials(alloc, &table)?.as_slice(), [1, 2, 4].as_slice());
    for (name, serial) in [
        (b"a".as_slice(), Some(4)),
        (b"b".as_slice(), Some(2)),
        (b"c".as_slice(), Some(1)),
        (b"d".as_slice(), None),
    ] {
        assert_eq!(rt; serial_named(alloc, &table, name)?, serial);
    }
    assert_eq!(rt; state_of(&table, 3), None);
    Ok(())
}

/// Another name, size, limit, origin and mark for the second filesystem.
fn change_all(table: &mut FsTable, name: Name) {
    if is_there(table, 2) && is_new(table, &name) {
        table.rename(2, name);
    }
    if is_there(table, 2) {
        table.set_size(2, 65_536);
    }
    if is_there(table, 2) {
        table.set_limit(2, Some(131_072));
    }
    if is_there(table, 2) {
        table.set_origin(2, None);
    }
    if is_there(table, 2) {
        table.set_merge(2, true);
    }
}

#[test]
fn a_change_is_of_one_filesystem(rt: HostRuntime) -> Result<(), Fail> {
    let alloc = rt.alloc();
    let mut table = three(alloc)?;
    let kept = table.copy(alloc)?;
    change_all(&mut table, Name::read(alloc, b"d")?);
    assert_eq!(rt;
        state_of(&table, 2),
        Some((65_536, Some(131_072), None, true))
    );
    assert_eq!(rt; serial_named(alloc, &table, b"b")?, None);
    assert_eq!(rt; serial_named(alloc, &table, b"d")?, Some(2));
    assert_eq!(rt; serial_named(alloc, &kept, b"b")?, Some(2));
    assert_eq!(rt; state_of(&table, 1), Some((32_768, None, None, false)));
    Ok(())
}

#[test]
fn who_had_it_as_origin_gets_its_origin(rt: HostRuntime) -> Result<(), Fail> {
    let alloc = rt.alloc();
    let mut table = three(alloc)?;
    if is_there(&table, 4) {
        table.set_merge(4, true);
    }
    assert!(rt; table.destroy(2).is_some());
    assert_eq!(rt; state_of(&table, 4), Some((32_768, None, Some(1), false)));
    assert!(rt; table.destroy(1).is_some());
    assert_eq!(rt; state_of(&table, 4), Some((32_768, None, None, false)));
    assert_eq!(rt; serials(alloc, &table)?.as_slice(), [4].as_slice());
    assert!(rt; table.destroy(2).is_none());
    assert!(rt; table.remove(4).is_some());
    assert_eq!(rt;
        (table.len(), serial_named(alloc, &table, b"a")?),
        (0, None)
    );
    Ok(())
}

// The thin map: writes, snapshots and filesystems that go.
ghost use Rattle.std.specs.Prelude.{IsTrue, ◌<◌};
ghost use Rattle.std.specs.List.{All};
ghost use Rattle.st_thinmap.specs.declared.mapping.Mapping.{Mapping};
ghost use Rattle.st_thinmap.specs.Thin.{AgreesWith};

use st_thinmap::{MapFault, Mapping, PlanFault, ThinMap};
use std::test::Fail;

// What a write did: how many fresh cells it took, or what it was answered.
#[derive(Clone, Copy, Debug, PartialEq, Eq)]
enum Wrote {
    Fresh(usize),
    NoSpace(u64, u64),
    Full(u64, u64),
}

// A write to the blocks from `first` to `last`, planned and put into the map.
fn write(map: &mut ThinMap, fs: u64, first: u32, last: u32, allocated: u64) -> Result<Wrote, Fail> {
    if last < first || last - first > 1 || map.next_cell() > 1000 {
        return Err("no such write".into());
    }
    match map.plan_write(fs, first, last, allocated) {
        Ok(plan) => {
            let fresh = plan.len();
            if fresh > 2 {
                return Err("a plan of three cells".into());
            }
            map.apply(plan);
            Ok(Wrote::Fresh(fresh))
        }
        Err(PlanFault::NoSpace(free, needed)) => Ok(Wrote::NoSpace(free, needed)),
        Err(PlanFault::MappingFull(mappings, more)) => Ok(Wrote::Full(mappings, more)),
        Err(PlanFault::OutOfMemory) => Err("out of memory".into()),
    }
}

// Whether the serials of all filesystems that have mappings lie below this one.
fn all_below(map: &ThinMap, fs: u64) -> bool
    ensures { IsTrue result → All (λ (m : Mapping). m.fs < fs) map.now.rows }
{
    let count = map.mappings() as usize;
    for i in 0..count {
        if map.row(i).fs >= fs {
            return false;
        }
    }
    true
}

fn snapshot(map: &mut ThinMap, origin: u64, fs: u64) -> Result<(), Fail> {
    if !all_below(map, fs) {
        return Err("the serial isn't new".into());
    }
    match map.snapshot(origin, fs) {
        Ok(()) => Ok(()),
        Err(MapFault::MappingFull(_, _)) => Err("too many mappings".into()),
        Err(MapFault::OutOfMemory) => Err("out of memory".into()),
    }
}

// Whether two cells have one place just where they have one number.
fn pair_up(a: Mapping, b: Mapping) -> bool
    ensures { IsTrue result → AgreesWith a b }
{
    match (a.cell == b.cell, a.place == b.place) {
        (true, true) => true,
        (false, false) => true,
        _ => false,
    }
}

// Whether so it is of each cell of the map and this one.
fn pairs_up(map: &ThinMap, mapping: Mapping) -> bool
    ensures { IsTrue result → All (AgreesWith mapping) map.now.rows }
{
    let count = map.mappings() as usize;
    for i in 0..count {
        if !pair_up(mapping, map.row(i)) {
            return false;
        }
    }
    true
}

// Loads a mapping, where the map takes it.
fn load(map: &mut ThinMap, fs: u64, block: u32, cell: u64, place: u32) -> Result<bool, Fail> {
    let mapping = Mapping {
        fs,
        block,
        cell,
        place,
    };
    let ready = map.mappings() < 32_768
        && map.mapping(fs, block).is_none()
        && cell < map.next_cell()
        && pairs_up(map, mapping);
    if ready {
        map.load(mapping)?;
    }
    Ok(ready)
}

// The rows as serial, block, cell and place.
fn row_is(map: &ThinMap, i: usize, wanted: (u64, u32, u64, u32)) -> bool {
    if (i as u64) < map.mappings() {
        let Mapping {
            fs,
            block,
            cell,
            place,
        } = map.row(i);
        (fs, block, cell, place) == wanted
    } else {
        false
    }
}

#[test]
fn a_write_takes_the_next_cells_and_the_least_places(rt: HostRuntime) -> Result<(), Fail> {
    let mut map = ThinMap::make(rt.alloc());
    assert_eq!(rt; (map.used(), map.mappings(), map.next_cell()), (0, 0, 1));
    assert_eq!(rt; map.lookup(1, 0), None);
    assert_eq!(rt; write(&mut map, 1, 7, 8, 32)?, Wrote::Fresh(2));
    assert_eq!(rt; map.lookup(1, 7), Some((1, 0)));
    assert_eq!(rt; map.lookup(1, 8), Some((2, 1)));
    assert_eq!(rt; (map.lookup(1, 6), map.lookup(2, 7)), (None, None));
    assert_eq!(rt; write(&mut map, 1, 7, 8, 32)?, Wrote::Fresh(0));
    assert_eq!(rt; write(&mut map, 1, 6, 7, 32)?, Wrote::Fresh(1));
    assert!(rt; row_is(&map, 0, (1, 6, 3, 2)));
    assert!(rt; row_is(&map, 1, (1, 7, 1, 0)));
    assert!(rt; row_is(&map, 2, (1, 8, 2, 1)));
    assert_eq!(rt; (map.used(), map.mappings(), map.next_cell()), (3, 3, 4));
    assert_eq!(rt; (map.mapped(1), map.mapped(2)), (3, 0));
    Ok(())
}

#[test]
fn a_snapshot_shares_cells_until_one_is_written(rt: HostRuntime) -> Result<(), Fail> {
    let mut map = ThinMap::make(rt.alloc());
    assert_eq!(rt; write(&mut map, 1, 0, 1, 32)?, Wrote::Fresh(2));
    snapshot(&mut map, 1, 2)?;
    assert_eq!(rt; (map.used(), map.mappings()), (2, 4));
    assert_eq!(rt;
        (map.lookup(2, 0), map.lookup(2, 1)),
        (Some((1, 0)), Some((2, 1)))
    );
    assert_eq!(rt; (map.uses_of(0), map.uses_of(1), map.uses_of(2)), (2, 2, 0));
    // The shared block takes a fresh cell, and is the only one of the old cell then.
    assert_eq!(rt; write(&mut map, 1, 0, 0, 32)?, Wrote::Fresh(1));
    assert_eq!(rt;
        (map.lookup(1, 0), map.lookup(2, 0)),
        (Some((3, 2)), Some((1, 0)))
    );
    assert_eq!(rt; write(&mut map, 2, 0, 0, 32)?, Wrote::Fresh(0));
    assert_eq!(rt; write(&mut map, 2, 0, 1, 32)?, Wrote::Fresh(1));
    assert_eq!(rt; (map.used(), map.mappings(), map.next_cell()), (4, 4, 5));
    Ok(())
}

#[test]
fn too_little_space_tells_what_is_free_and_needed(rt: HostRuntime) -> Result<(), Fail> {
    let mut map = ThinMap::make(rt.alloc());
    assert_eq!(rt; write(&mut map, 1, 0, 1, 1)?, Wrote::NoSpace(1, 2));
    assert_eq!(rt; write(&mut map, 1, 0, 0, 1)?, Wrote::Fresh(1));
    assert_eq!(rt; write(&mut map, 1, 0, 0, 1)?, Wrote::Fresh(0));
    assert_eq!(rt; write(&mut map, 1, 5, 5, 1)?, Wrote::NoSpace(0, 1));
    // A shared block needs a cell too.
    snapshot(&mut map, 1, 2)?;
    assert_eq!(rt; write(&mut map, 1, 0, 1, 2)?, Wrote::NoSpace(1, 2));
    assert_eq!(rt; write(&mut map, 1, 0, 0, 2)?, Wrote::Fresh(1));
    assert_eq!(rt; (map.used(), map.mappings()), (2, 2));
    Ok(())
}

#[test]
fn a_filesystem_that_goes_tells_its_own_cells(rt: HostRuntime) -> Result<(), Fail> {
    let mut map = ThinMap::make(rt.alloc());
    assert_eq!(rt; write(&mut map, 1, 0, 1, 32)?, Wrote::Fresh(2));
    snapshot(&mut map, 1, 2)?;
    assert_eq!(rt; write(&mut map, 2, 1, 2, 32)?, Wrote::Fresh(2));
    // The second has cell 1 with the first, and 3 and 4 alone.
    let gone = map.remove(rt.alloc(), 2)?;
    assert_eq!(rt; gone.items(), &[3, 4][..]);
    assert_eq!(rt;
        (map.used(), map.mappings(), map.lookup(2, 0)),
        (2, 2, None)
    );
    // Places that are free again are given again, and numbers are not.
    assert_eq!(rt; write(&mut map, 1, 9, 9, 32)?, Wrote::Fresh(1));
    assert_eq!(rt; map.lookup(1, 9), Some((5, 2)));
    let gone = map.remove(rt.alloc(), 7)?;
    assert_eq!(rt; gone.len(), 0);
    let gone = map.remove(rt.alloc(), 1)?;
    assert_eq!(rt; gone.items(), &[1, 2, 5][..]);
    assert_eq!(rt; (map.used(), map.mappings(), map.next_cell()), (0, 0, 6));
    Ok(())
}

#[test]
fn loaded_mappings_stand_in_order(rt: HostRuntime) -> Result<(), Fail> {
    let mut map = ThinMap::make(rt.alloc());
    map.set_next(10);
    assert!(rt; load(&mut map, 2, 5, 9, 0)?);
    assert!(rt; load(&mut map, 1, 9, 4, 7)?);
    assert!(rt; load(&mut map, 1, 3, 9, 0)?);
    assert!(rt; !load(&mut map, 1, 3, 4, 7)?);
    assert!(rt; !load(&mut map, 1, 4, 10, 8)?);
    assert!(rt; !load(&mut map, 1, 4, 4, 8)?);
    assert!(rt; row_is(&map, 0, (1, 3, 9, 0)));
    assert!(rt; row_is(&map, 1, (1, 9, 4, 7)));
    assert!(rt; row_is(&map, 2, (2, 5, 9, 0)));
    assert_eq!(rt; (map.used(), map.mappings(), map.next_cell()), (2, 3, 10));
    assert_eq!(rt; (map.uses_of(0), map.uses_of(7)), (2, 1));
    // The least places that are free, from the next number on.
    assert_eq!(rt; write(&mut map, 3, 0, 1, 32)?, Wrote::Fresh(2));
    assert_eq!(rt;
        (map.lookup(3, 0), map.lookup(3, 1)),
        (Some((10, 1)), Some((11, 2)))
    );
    Ok(())
}

#[test]
fn a_copy_goes_its_own_way(rt: HostRuntime) -> Result<(), Fail> {
    let mut map = ThinMap::make(rt.alloc());
    assert_eq!(rt; write(&mut map, 3, 4, 4, 32)?, Wrote::Fresh(1));
    let mut other = map.copy()?;
    assert_eq!(rt; write(&mut other, 3, 5, 5, 32)?, Wrote::Fresh(1));
    assert_eq!(rt; (map.mappings(), other.mappings()), (1, 2));
    assert_eq!(rt; (map.next_cell(), other.next_cell()), (2, 3));
    assert_eq!(rt; other.lookup(3, 4), map.lookup(3, 4));
    Ok(())
}

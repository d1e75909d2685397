// Segments, the table of their blocks, the data tier, and its growth.
ghost use Rattle.std.specs.Prelude.{◌≡◌, [], ◌∷◌, IfOk};
ghost use Rattle.st_datatier.specs.Tier.{sectors_of};
ghost use Rattle.st_seg.specs.Blocks.{blocks_from};
ghost use Rattle.st_seg.specs.Stock.{empty_stock, with_blocks};

use st_datatier::DataTier;
use st_grow::{extension, grown};
use st_limits::is_device_size;
use st_linear::LinearTable;
use st_seg::{SegAlloc, SegFault};
use st_units::{DevPath, DevRow, DevRows, NoMemory, SegList, Tier};
use std::alloc::Global;
use std::test::Fail;

/// The blocks for data of a first device of 8,192 sectors, all free.
fn stock(alloc: Global) -> Result<SegAlloc, NoMemory>
    ensures { IfOk result (λ stock. stock ≡ with_blocks empty_stock (blocks_from 0 26 36)) }
{
    let mut stock = SegAlloc::make(alloc);
    stock.add(0, 26, 36)?;
    Ok(stock)
}

/// Takes so many blocks, and gives a table of them.
fn table(alloc: Global, stock: &mut SegAlloc, blocks: u64) -> Result<LinearTable, Fail>
    requires { stock.old.taken ≡ [] }
{
    let segments = stock.take(alloc, blocks)?;
    let mut table = LinearTable::make(alloc);
    table.extend(alloc, &segments)?;
    Ok(table)
}

/// Device, first block and blocks of the only segment, where there is just one.
fn only(segments: &SegList) -> Option<(u16, u32, u32)> {
    if segments.len() != 1 {
        return None;
    }
    let segment = segments.at(0);
    Some((segment.dev, segment.first, segment.blocks))
}

#[test]
fn blocks_are_taken_while_there_are_enough(rt: HostRuntime) -> Result<(), Fail> {
    let alloc = rt.alloc();
    let mut stock = stock(alloc)?;
    assert_eq!(rt; stock.free(), 36);
    let first = stock.take(alloc, 32)?;
    assert_eq!(rt; only(&first), Some((0, 26, 32)));
    assert!(rt; matches!(stock.take(alloc, 5), Err(SegFault::NoRoom(4))));
    let copy = stock.copy()?;
    assert_eq!(rt; only(&copy.front(alloc, 4)?), Some((0, 58, 4)));
    assert_eq!(rt; only(&stock.take(alloc, 4)?), Some((0, 58, 4)));
    assert_eq!(rt;
        (copy.free(), stock.free(), stock.take(alloc, 0)?.len()),
        (4, 0, 0)
    );
    Ok(())
}

#[test]
fn a_block_of_a_table_has_its_place(rt: HostRuntime) -> Result<(), Fail> {
    let alloc = rt.alloc();
    let table = table(alloc, &mut stock(alloc)?, 32)?.copy()?;
    assert_eq!(rt; table.length(), 32);
    for (block, sector) in [(0, 3_584), (1, 3_712), (31, 7_552)] {
        if block < table.length() {
            assert_eq!(rt; table.place(block), (0, sector), "block {block}");
        }
    }
    Ok(())
}

/// The row of one data device.
fn row(alloc: Global, number: usize, sectors: u64) -> Result<DevRows, NoMemory>
    ensures { IfOk result (λ rows. sectors_of rows ≡ sectors ∷ []) }
{
    let path = format!(in alloc; "/dev/sim{number}")?;
    let Ok(path) = DevPath::read(alloc, path.as_bytes()) else {
        return Err(NoMemory);
    };
    let mut rows = DevRows::make(alloc);
    rows.push(DevRow {
        path,
        tier: Tier::DataTier,
        sectors,
    })?;
    Ok(rows)
}

/// A tier of devices of these sizes, the first by `make` and the others by `add_devs`.
fn tier(alloc: Global, first: u64, more: &[u64]) -> Result<DataTier, Fail> {
    if !is_device_size(first) {
        return Err("no size of a device".into());
    }
    let mut tier = DataTier::make(alloc, &row(alloc, 0, first)?)?;
    for sectors in more {
        let number = tier.devices();
        if number >= 16 || !is_device_size(*sectors) {
            return Err("no size of a device".into());
        }
        tier.add_devs(&row(alloc, number, *sectors)?)?;
    }
    Ok(tier)
}

#[test]
fn the_flex_area_is_taken_from_the_room_once(rt: HostRuntime) -> Result<(), Fail> {
    let alloc = rt.alloc();
    for (first, more, room) in [
        (8_192, [].as_slice(), 36),
        (65_536, [].as_slice(), 484),
        (65_536, [65_536].as_slice(), 994),
        (8_192, [65_536, 8_319, 8_320].as_slice(), 671),
        (4_294_967_296, [].as_slice(), 33_554_404),
    ] {
        let tier = tier(alloc, first, more)?;
        assert_eq!(rt;
            (tier.room(), tier.allocated()),
            (room, 0),
            "{first} and {more:?}"
        );
    }
    Ok(())
}

#[test]
fn blocks_come_into_use_device_by_device(rt: HostRuntime) -> Result<(), Fail> {
    let alloc = rt.alloc();
    let mut tier = tier(alloc, 8_192, &[65_536])?;
    tier.extend(alloc, 32)?;
    tier.extend(alloc, 64)?;
    assert!(rt; matches!(tier.extend(alloc, 451), Err(SegFault::NoRoom(450))));
    let tier = tier.copy()?;
    assert_eq!(rt;
        (tier.room(), tier.allocated(), tier.devices()),
        (546, 96, 2)
    );
    let table = tier.table();
    for (block, place) in [
        (0, (0, 3_584)),
        (35, (0, 8_064)),
        (36, (1, 256)),
        (95, (1, 7_808)),
    ] {
        if block < table.length() {
            assert_eq!(rt; table.place(block), place, "block {block}");
        }
    }
    assert_eq!(rt; table.length(), 96);
    Ok(())
}

#[test]
fn a_tier_is_extended_below_16_free_blocks(rt: HostRuntime) -> Result<(), Fail> {
    for (allocated, used, room, want) in [
        (32, 16, 484, 0),
        (32, 17, 484, 64),
        (32, 32, 484, 64),
        (32, 32, 36, 4),
        (420, 420, 484, 64),
        (421, 421, 484, 63),
        (484, 484, 484, 0),
    ] {
        if used <= allocated && allocated <= room {
            let added = extension(allocated, used, room);
            assert_eq!(rt; added, want, "{used} of {allocated} blocks, room {room}");
        }
    }
    Ok(())
}

#[test]
fn a_filesystem_doubles_above_half(rt: HostRuntime) -> Result<(), Fail> {
    let most = 4_294_967_296;
    for (row, size, mapped, limit, others, over, want) in [
        ("half is mapped", 32_768, 128, None, 0, true, 32_768),
        ("more than half", 32_768, 129, None, 0, true, 65_536),
        (
            "up to the limit",
            32_768,
            129,
            Some(40_960),
            0,
            true,
            40_960,
        ),
        ("at the limit", 32_768, 129, Some(32_768), 0, true, 32_768),
        (
            "up to the greatest size",
            most - 128,
            33_554_431,
            None,
            0,
            true,
            most,
        ),
        (
            "no room beside the others",
            32_768,
            129,
            None,
            0,
            false,
            32_768,
        ),
        ("just room", 16_384, 65, None, 228, false, 32_768),
        ("one block too many", 16_384, 65, None, 229, false, 16_384),
    ] {
        let limit_fits = match limit {
            Some(limit) => size <= limit,
            None => true,
        };
        if limit_fits && size <= most && mapped <= 1 << 40 && others <= 1 << 40 {
            assert_eq!(rt;
                grown(size, mapped, limit, others, 484, over),
                want,
                "{row}"
            );
        }
    }
    Ok(())
}

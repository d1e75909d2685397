ghost use Rattle.std.specs.Prelude.{◌≡◌, ◌+◌, ◌<◌, ◌≤◌, ◌∷◌, ◌++◌, [], length, OnOk};
ghost use Rattle.std.specs.List.{All};
ghost use Rattle.st_seg.specs.Stock.{added};
ghost use Rattle.st_limits.specs.Sums.{IsDeviceSize};
ghost use Rattle.st_datatier.specs.Tier.{data_blocks, first_block_of, sectors_of};

use st_limits::{FLEX_BLOCKS, usable_blocks};
use st_seg::SegAlloc;
use st_units::{DevRow, NoMemory};

/// Adds the devices of the rows to the sizes, and their blocks to the free ones. After a refusal
/// some may be there.
pub fn add_rows(
    sectors: &mut Vec<u64>,
    free: &mut SegAlloc,
    rows: &[DevRow],
) -> Result<(), NoMemory>
    requires few { length sectors.old.items + length rows.now ≤ 16 }
    requires sizes { All IsDeviceSize sectors.old.items }
    requires more_sizes { All IsDeviceSize (sectors_of rows.now) }
    requires blocks { added free.old ≡ data_blocks sectors.old.items }
    ensures sectors { OnOk result (sectors.new.items ≡ sectors.old.items ++ sectors_of rows.now) }
    ensures blocks { OnOk result (added free.new ≡ data_blocks sectors.new.items) }
    ensures taken { OnOk result (free.new.taken ≡ free.old.taken) }
    ensures sizes { OnOk result (All IsDeviceSize sectors.new.items) }
{
    for row in rows {
        add_device(sectors, free, row.sectors)?;
    }
    Ok(())
}

/// Adds one device of this size.
fn add_device(sectors: &mut Vec<u64>, free: &mut SegAlloc, size: u64) -> Result<(), NoMemory>
    requires few { length sectors.old.items < 16 }
    requires sizes { All IsDeviceSize sectors.old.items }
    requires size { IsDeviceSize size }
    requires blocks { added free.old ≡ data_blocks sectors.old.items }
    ensures sectors { OnOk result (sectors.new.items ≡ sectors.old.items ++ size ∷ []) }
    ensures blocks { OnOk result (added free.new ≡ data_blocks (sectors.old.items ++ size ∷ [])) }
    ensures taken { OnOk result (free.new.taken ≡ free.old.taken) }
{
    let dev = sectors.len() as u16;
    let first = first_block(dev);
    free.add(dev, first, usable_blocks(size) as u32 - first)?;
    sectors.push(size)?;
    Ok(())
}

/// The first block for data of the device of this number.
pub fn first_block(dev: u16) -> u32
    ensures { result ≡ first_block_of dev }
{
    if dev == 0 { FLEX_BLOCKS as u32 } else { 0 }
}

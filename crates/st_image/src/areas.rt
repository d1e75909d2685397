ghost use Rattle.std.specs.Prelude.{◌≡◌};
ghost use Rattle.st_image.specs.Looks.{pool_area, flex_area};

use st_deltalog::FlexArea;
use st_slots::Area;

/// The slots for records of pools on a device.
pub fn pool_area() -> Area
    ensures { result ≡ pool_area }
{
    Area {
        at: 16,
        slot: 64,
        magic: *b"STRSPOL1",
    }
}

/// The slots for checkpoints and deltas on the first device of a pool.
pub fn flex_area() -> FlexArea
    ensures { result ≡ flex_area }
{
    FlexArea {
        area: Area {
            at: 256,
            slot: 1_664,
            magic: *b"STRSFLX1",
        },
        delta: *b"STRSDLT1",
    }
}

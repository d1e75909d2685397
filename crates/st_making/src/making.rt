ghost use Rattle.std.specs.Prelude.{◌≡◌, OnOk};
ghost use Rattle.st_units.specs.Causes.{HasCause};
ghost use Rattle.st_rack.specs.Device.{Path};
ghost use Rattle.st_rack.specs.Moments.{Goes, Keeps};
ghost use Rattle.st_deltalog.specs.Bearing.{IsSettled};
ghost use Rattle.st_commit.specs.Ready.{IsOf};
ghost use Rattle.st_image.specs.Bears.{paths};
ghost use Rattle.st_books.specs.Survived.{Survived};
ghost use Rattle.st_books.specs.Ready.{AreReady, AreThere, rows_of};
ghost use Rattle.st_making.specs.First.{AreNew, IsFirst};
ghost use Rattle.st_making.specs.Made.{AreFree, BearHeaders, IsMade, made, Stays};

use crate::first::First;
use crate::headers::write_headers;
use st_books::Books;
use st_commit::commit_first;
use st_image::{flex_area, pool_area};
use st_rack::{DevFault, Rack};
use st_units::DevList;

/// Makes a pool on these devices: writes the header of each, and commits generation 1. It takes no memory.
///
/// After a fault a start tells whether there is a pool.
#[tactic(none)]
pub fn make<R: Rack>(
    rack: &mut R,
    devs: &DevList,
    books: &Books,
    first: First,
) -> Result<(), DevFault>
    requires new { AreNew books.now }
    requires first { IsFirst books.now first }
    requires on { paths (rows_of books.now.rec) ≡ devs.now }
    requires there { AreThere (R.devs rack.old) (rows_of books.now.rec) }
    requires free { AreFree books.now.rec.serial (rows_of books.now.rec) (R.state_at rack.old (R.moment rack.old)) }
    ensures devs { R.devs rack.new ≡ R.devs rack.old }
    ensures reads { R.reads rack.new ≡ R.reads rack.old }
    ensures spare { R.spare rack.new ≡ R.spare rack.old }
    ensures cause { HasCause (R.faults rack.old) (R.faults rack.new) result }

    // A crash at any moment of the call leaves no pool of this serial or the new one, and no device by itself stands for another pool.
    ensures during { Keeps R.moment R.state_at (Survived books.now.rec.serial (rows_of books.now.rec) (IsMade (made books.now.rec))) rack.old rack.new }

    // No other device is touched.
    ensures others { Goes R.moment R.state_at (Stays devs.now) rack.old rack.new }

    // After an `Ok` the devices bear the books.
    ensures done { OnOk result (AreReady books.now (R.state_at rack.new (R.moment rack.new))) }

    // Then nothing is pending on them, and each has both copies of its header.
    ensures settled { OnOk result ((d : Path) → IsOf devs.now d → IsSettled (R.state_at rack.new (R.moment rack.new) d)) }
    ensures headers { OnOk result (BearHeaders books.now.rec.serial (rows_of books.now.rec) (R.state_at rack.new (R.moment rack.new))) }
{
    let First {
        rec_text,
        body,
        mut rec_work,
        mut body_work,
    } = first;
    write_headers(rack, &books.rec)?;
    commit_first(
        rack,
        devs,
        &pool_area(),
        &flex_area(),
        body.items(),
        rec_text.items(),
        &mut body_work,
        &mut rec_work,
    )?;
    Ok(())
}

ghost use Rattle.std.specs.Prelude.{◌≡◌, ◌+◌, ◌<◌, ◌^◌, ℕ, true, false, OnOk, OnErr, Some, slice_get};
ghost use Rattle.st_units.specs.Causes.{HasCause};
ghost use Rattle.st_rack.specs.Device.{Path, held};
ghost use Rattle.st_rack.specs.Moments.{Keeps};
ghost use Rattle.st_poolrec.specs.Record.{record_text};
ghost use Rattle.st_deltalog.specs.Bearing.{IsSettled};
ghost use Rattle.st_commit.specs.Ready.{BearsRecord, IsOf};
ghost use Rattle.st_image.specs.Bears.{paths};
ghost use Rattle.st_image.specs.Stands.{state_of};
ghost use Rattle.st_image.specs.Looks.{pool_area};
ghost use Rattle.st_books.specs.Spelled.{IsNext, same_flex};
ghost use Rattle.st_books.specs.Survived.{Survived, IsEither, unless_gone};
ghost use Rattle.st_books.specs.Ready.{AreReady, AreThere, rows_of, stood, stood_next};

use crate::books::{Books, Next};
use st_commit::commit_by_rule;
use st_image::{flex_area, pool_area};
use st_rack::{DevFault, Rack};
use st_units::DevList;

/// Commits the next records of a pool to its devices. No cell is touched.
#[tactic(none)]
pub fn commit_next<R: Rack>(
    rack: &mut R,
    devs: &DevList,
    books: &mut Books,
    next: Next,
) -> Result<(), DevFault>
    requires ready { AreReady books.old (R.state_at rack.old (R.moment rack.old)) }
    requires alive { books.old.rec.gone ≡ false }
    requires next { IsNext books.old next }
    requires on { paths (rows_of books.old.rec) ≡ devs.now }
    requires there { AreThere (R.devs rack.old) (rows_of books.old.rec) }
    requires last { books.old.generation < 2 ^ 48 }
    ensures devs { R.devs rack.new ≡ R.devs rack.old }
    ensures reads { R.reads rack.new ≡ R.reads rack.old }
    ensures spare { R.spare rack.new ≡ R.spare rack.old }
    ensures cause { HasCause (R.faults rack.old) (R.faults rack.new) result }

    // A crash at any moment of the call leaves the pool before the commit or after it.
    ensures during { Keeps R.moment R.state_at (Survived books.old.rec.serial (rows_of books.old.rec) (IsEither (stood books.old (held (R.state_at rack.old (R.moment rack.old)))) (unless_gone next.rec (stood_next books.old next.rec (held (R.state_at rack.old (R.moment rack.old))))))) rack.old rack.new }

    // After an `Ok` the devices bear the next records beside the ones before, and each cell is what it was.
    ensures done { OnOk result (AreReady books.new (R.state_at rack.new (R.moment rack.new))
        × (state_of books.new.generation books.new.rec books.new.flex (held (R.state_at rack.new (R.moment rack.new))) ≡ state_of (books.old.generation + 1) next.rec (same_flex books.old.flex) (held (R.state_at rack.old (R.moment rack.old))))) }
    ensures borne_before { OnOk result ((k : ℕ) (d : Path × ℕ) → slice_get (rows_of books.old.rec) k ≡ Some d → BearsRecord pool_area books.old.generation (record_text books.old.rec) (R.state_at rack.new (R.moment rack.new) d.0)) }
    ensures rec { OnOk result (books.new.rec ≡ next.rec) }
    ensures flex { OnOk result (books.new.flex ≡ same_flex books.old.flex) }
    ensures generation { OnOk result (books.new.generation ≡ books.old.generation + 1) }

    ensures committed { OnOk result (books.new.has_committed ≡ true) }

    // Then nothing is pending on any device.
    ensures settled { OnOk result ((d : Path) → IsOf devs.now d → IsSettled (R.state_at rack.new (R.moment rack.new) d)) }

    // After a fault the books are what they were, but for the place of the next delta.
    ensures rec_before { OnErr result (books.new.rec ≡ books.old.rec) }
    ensures flex_before { OnErr result (books.new.flex ≡ books.old.flex) }
    ensures generation_before { OnErr result (books.new.generation ≡ books.old.generation) }
    ensures committed_before { OnErr result (books.new.has_committed ≡ books.old.has_committed) }
{
    let Next {
        rec,
        rec_text,
        delta,
        body,
        mut rec_work,
        mut delta_work,
        mut body_work,
    } = next;
    commit_by_rule(
        rack,
        devs,
        &pool_area(),
        &flex_area(),
        &mut books.tail,
        true,
        books.has_committed,
        books.generation + 1,
        delta.bytes(),
        body.items(),
        rec_text.items(),
        &mut delta_work,
        &mut body_work,
        &mut rec_work,
    )?;
    books.rec = rec;
    books.flex.version2 = true;
    books.generation += 1;
    books.has_committed = true;
    Ok(())
}

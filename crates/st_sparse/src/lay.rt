ghost use Rattle.std.specs.Prelude.{◌≡◌, ◌+◌, ◌*◌, ◌/◌, ◌%◌, ◌^◌, ◌<◌, true, ℕ, length, None};
ghost use Rattle.st_rack.specs.Device.{cells};
ghost use Rattle.st_rack.specs.Story.{Content};
ghost use Rattle.st_sparse.specs.Sectors.{byte_at, is_kept};
ghost use Rattle.st_sparse.specs.Since.{content, taken, is_torn};

use crate::sectors::{Sectors, lay_over, write_kept};
use crate::{Pick, Torn};

// What of a write is taken.
fn taken(write: &Torn, pick: Option<Pick>) -> &[u8]
    ensures { result.now ≡ taken pick write.now }
{
    match pick {
        Some(pick) => write.reached(pick),
        None => write.reached(write.took),
    }
}

/// Lays the writes over what a buffer holds, where it begins with that sector.
pub fn lay_all_over(buf: &mut [u8], sector: u64, since: &[Torn])
    requires whole { length buf.old % 512 ≡ 0 }
    requires fits { 512 * sector + length buf.old < 512 * 2 ^ 64 }
    ensures { (f : Content) → buf.old ≡ cells f (512 * sector) (length buf.old) → buf.new ≡ cells (content None since.now f) (512 * sector) (length buf.old) }
{
    for i in 0..since.len() {
        lay_over(buf, sector, since[i].sector, taken(&since[i], None));
    }
}

/// Lays the writes into their sectors, which are kept.
pub fn lay_all_in(kept: &mut Sectors, since: &[Torn], pick: Option<Pick>)
    requires { (i : ℕ) → is_torn since.now i ≡ true → is_kept kept.old (i / 512) ≡ true }
    ensures { byte_at kept.new ≡ content pick since.now (byte_at kept.old) }
{
    for i in 0..since.len() {
        write_kept(kept, since[i].sector, taken(&since[i], pick));
    }
}

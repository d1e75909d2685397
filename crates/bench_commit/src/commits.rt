// Commits, one behind the other.
ghost use Rattle.std.specs.Prelude.{◌≡◌, ◌+◌, ◌*◌, ◌<◌, ◌≤◌, ◌^◌, IsTrue, length, Some, slice_get};
ghost use Rattle.st_fields.specs.Slot.{padded};
ghost use Rattle.st_rack.specs.Device.{Path};
ghost use Rattle.st_slots.specs.Places.{Lies};
ghost use Rattle.st_commit.specs.Ready.{AreApart, AreDistinct, IsOf};
ghost use Rattle.bench_commit.specs.Fit.{Fit};

use st_commit::commit_by_rule;
use st_deltalog::{FlexArea, Tail};
use st_rack::Rack;
use st_slots::Area;
use st_units::DevList;
use std::alloc::{AllocError, Global};

/// The bytes of a delta with two rows.
pub const DELTA: usize = 72;

/// What commits write, and buffers for it.
#[derive(Drop)]
pub struct Texts {
    pub body: Vec<u8>,
    pub rec: Vec<u8>,
    pub body_work: Vec<u8>,
    pub work: Vec<u8>,
}

/// So many bytes and a head, filled up to whole sectors.
pub fn sealed_bytes(n: usize) -> usize
    requires { n ≤ 2 ^ 32 }
    ensures { result ≡ padded (64 + n) }
{
    512 * ((64 + n + 511) / 512)
}

impl Texts {
    /// Texts of so many bytes.
    pub fn make(alloc: Global, body: usize, rec: usize) -> Result<Texts, AllocError>
        requires body { body ≤ 2 ^ 32 }
        requires rec { rec ≤ 2 ^ 32 }
    {
        Ok(Texts {
            body: vec![in alloc; 3u8; body]?,
            rec: vec![in alloc; 5u8; rec]?,
            body_work: vec![in alloc; 0u8; sealed_bytes(body)]?,
            work: vec![in alloc; 0u8; sealed_bytes(rec)]?,
        })
    }

    /// Whether they fit the slots, and the buffers are for them.
    pub fn fit(&self, pool: &Area, flex: &FlexArea) -> bool
        ensures { IsTrue result → Fit pool.now flex.now self.now }
    {
        let (body, rec) = (self.body.len(), self.rec.len());
        if body > 1_048_576 || rec > 65_536 {
            return false;
        }
        let (body, rec) = (sealed_bytes(body), sealed_bytes(rec));
        self.body_work.len() == body
            && self.work.len() == rec
            && (body / 512) as u64 <= flex.area.slot
            && (rec / 512) as u64 <= pool.slot
    }
}

/// Makes so many commits by the rule, from the generation behind this one on, each of the same bytes; the last generation then. None
/// where a device failed.
pub fn commit_often<R: Rack>(
    rack: &mut R,
    devs: &DevList,
    pool: &Area,
    flex: &FlexArea,
    tail: &mut Tail,
    has_committed: bool,
    generation: u64,
    times: u64,
    texts: &mut Texts,
) -> Option<u64>
    requires some { 0 < length devs.now }
    requires distinct { AreDistinct devs.now }
    requires lie { (d : Path) → IsOf devs.now d → Lies (R.devs rack.old) d pool.now }
    requires flex_lies { (d : Path) → slice_get devs.now 0 ≡ Some d → Lies (R.devs rack.old) d flex.now.area }
    requires apart { AreApart pool.now flex.now.area }
    requires fit { Fit pool.now flex.now texts.old }
    ensures devs { R.devs rack.new ≡ R.devs rack.old }
    ensures fit { Fit pool.now flex.now texts.new }
{
    let delta = [7; DELTA];
    let mut delta_work = [0; 512];
    let mut last = generation;
    for _ in 0..times {
        if tail.slot > 1 || last >= 1 << 48 {
            return None;
        }
        last += 1;
        let done = commit_by_rule(
            rack,
            devs,
            pool,
            flex,
            tail,
            true,
            has_committed,
            last,
            &delta,
            texts.body.as_slice(),
            texts.rec.as_slice(),
            &mut delta_work,
            texts.body_work.as_mut_slice(),
            texts.work.as_mut_slice(),
        );
        if done.is_err() {
            return None;
        }
    }
    Some(last)
}

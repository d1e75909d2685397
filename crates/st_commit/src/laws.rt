//! Laws of what a pool's devices stand for. They do nothing when they run.

ghost use Rattle.std.specs.Prelude.{◌≡◌, ◌⊎◌, ◌+◌, ◌*◌, ◌%◌, ◌<◌, ◌≤◌, ◌^◌, ℕ, Bool, List, length, Option, Some, None, slice_get};
ghost use Rattle.st_rack.specs.Story.{Content};
ghost use Rattle.st_rack.specs.Device.{Path, DevState, State, Image, Leaves, Settling, Touched, held};
ghost use Rattle.st_rack.specs.Left.{LeftOn};
ghost use Rattle.st_rack.specs.Moments.{Goes, Keeps};
ghost use Rattle.st_slots.specs.declared.spot.Area.{Area};
ghost use Rattle.st_slots.specs.Reading.{read_slot};
ghost use Rattle.st_deltalog.specs.declared.area.FlexArea.{FlexArea};
ghost use Rattle.st_deltalog.specs.Log.{Log, log_at};
ghost use Rattle.st_deltalog.specs.Bearing.{IsSettled, Rests};
ghost use Rattle.st_commit.specs.Standing.{records, owned_records, LeftNow, Owned, stands, standing_of, newest_over, AreOne};
ghost use Rattle.st_commit.specs.Ready.{AreApart, BearsRecord, IsOf, IsSound, Ready, Settles, Spares};
ghost use Rattle.st_commit.specs.Reading.{history};
ghost use Rattle.st_commit.specs.Repair.{Newest, NewestOnly};
ghost use Rattle.st_commit.specs.Restarting.{AllOne, NoneByChance, StandsAlike};
ghost use Rattle.st_commit.specs.Staying.{LeftAlone, SlotsAlone};

use st_rack::Rack;

/// Where a pool is ready, whatever a crash leaves is of one history and stands for its generation; and a device that bears the record
/// shows it.
pub fn what_is_ready_shows()
    ensures stands { (pool : Area) (flex : FlexArea) (p up g : ℕ) (h : ℕ → List ℕ) (devs : List Path) (first : Path) (old : Option Log) (s : State) (c : Image) → slice_get devs 0 ≡ Some first → IsSound flex
        → Ready pool flex p up h devs first g old s → LeftNow devs (records pool flex) s c → AreOne pool p devs c × (stands pool flex p devs first c ≡ standing_of g (h g) old) }
    ensures borne { (pool : Area) (g : ℕ) (rec : List ℕ) (s : DevState) (f : ℕ → ℕ) → BearsRecord pool g rec s → Leaves s f → read_slot pool (g % 2) f ≡ Some (g, rec) }
{}

/// Where the pool owns its first device, it is enough that a crash leaves the devices fairly for readers of which that of a checkpoint
/// finds nothing on a device that isn't the pool's. What users of another pool wrote there in an earlier time then says nothing of it.
pub fn what_an_owner_is_left()
    ensures { (pool : Area) (flex : FlexArea) (owns : Content → Bool) (devs : List Path) (first : Path) (s : State) (c : Image) → slice_get devs 0 ≡ Some first → Owned owns (s first)
        → LeftOn devs (owned_records pool flex owns) s c → LeftNow devs (records pool flex) s c }
{}

/// A pool stays ready, and its devices go on bearing the record, while its slots are left alone.
pub fn what_is_ready_stays()
    ensures ready { (pool : Area) (flex : FlexArea) (p up g : ℕ) (h : ℕ → List ℕ) (devs : List Path) (first : Path) (old : Option Log) (a s : State) → slice_get devs 0 ≡ Some first → IsSound flex
        → SlotsAlone pool flex devs first a s → Ready pool flex p up h devs first g old a → Ready pool flex p up h devs first g old s }
    ensures borne { (pool : Area) (flex : FlexArea) (g : ℕ) (rec : List ℕ) (devs : List Path) (first : Path) (a s : State) → slice_get devs 0 ≡ Some first → IsSound flex
        → SlotsAlone pool flex devs first a s → ((d : Path) → IsOf devs d → BearsRecord pool g rec (a d)) → (d : Path) → IsOf devs d → BearsRecord pool g rec (s d) }
{}

/// An area is left alone by a write off it and by a sync, with success or without, and by one after the other.
pub fn what_leaves_alone()
    ensures nothing { (area : Area) (a : DevState) → LeftAlone area a a }
    ensures write { (area : Area) (at : ℕ) (bytes : List ℕ) (a b : DevState) → ((512 * area.at + 512 * (2 * area.slot) ≤ at) ⊎ (at + length bytes ≤ 512 * area.at)) → Touched at bytes a b → LeftAlone area a b }
    ensures sync { (area : Area) (a b : DevState) → Settling a b → LeftAlone area a b }
    ensures both { (area : Area) (a b c : DevState) → LeftAlone area a b → LeftAlone area b c → LeftAlone area a c }
{}

/// What a start reads of settled devices: the newest record stands on one of them; where the first bears it and its log is there, the
/// pool is ready, for a checkpoint as the next commit; and where no slot of the serial is there, a first commit may be made.
pub fn what_a_start_reads()
    ensures newest { (pool : Area) (p g : ℕ) (rec : List ℕ) (devs : List Path) (s : State) → ((d : Path) → IsOf devs d → IsSettled (s d)) → AreOne pool p devs (held s)
        → newest_over pool p devs (held s) ≡ Some (g, rec) → (bearer : Path) × Newest pool p (history pool p devs (held s)) devs bearer g rec s }
    ensures ready { (pool : Area) (flex : FlexArea) (p g : ℕ) (rec : List ℕ) (log : Log) (devs : List Path) (first : Path) (s : State) → slice_get devs 0 ≡ Some first → ((d : Path) → IsOf devs d → IsSettled (s d))
        → AreOne pool p devs (held s) → newest_over pool p devs (held s) ≡ Some (g, rec) → read_slot pool (g % 2) (s first).holds ≡ Some (g, rec) → log_at flex p g (s first).holds ≡ Some log
        → Ready pool flex p g (history pool p devs (held s)) devs first g (Some log) s }
    ensures none { (pool : Area) (flex : FlexArea) (p : ℕ) (h : ℕ → List ℕ) (devs : List Path) (first : Path) (s : State) → ((d : Path) → IsOf devs d → IsSettled (s d))
        → newest_over pool p devs (held s) ≡ None → Ready pool flex p 0 h devs first 0 None s }
{}

/// After a repair, where the log of the newest generation rests on the first device, the pool is ready.
pub fn what_is_mended_is_ready()
    ensures { (pool : Area) (flex : FlexArea) (p up g : ℕ) (h : ℕ → List ℕ) (devs : List Path) (bearer first : Path) (rec : List ℕ) (log : Log) (s : State) → Newest pool p h devs bearer g rec s
        → BearsRecord pool g rec (s first) → Rests flex p up g log (s first) → Ready pool flex p up h devs first g (Some log) s }
{}

/// A start syncs the devices, reads the newest record and repairs. Whatever a crash leaves meanwhile stands for what the devices could
/// stand for at its start: a second crash does no harm.
pub fn a_start_leaves_alike<R: Rack>(start: &R, synced: &R, repaired: &R)
    ensures { (pool : Area) (flex : FlexArea) (owns : Content → Bool) (p g : ℕ) (rec : List ℕ) (devs : List Path) (first : Path) → slice_get devs 0 ≡ Some first → AreApart pool flex.area
        → Goes R.moment R.state_at Settles start.now synced.now → ((d : Path) → IsOf devs d → IsSettled (R.state_at synced.now (R.moment synced.now) d))
        → newest_over pool p devs (held (R.state_at synced.now (R.moment synced.now))) ≡ Some (g, rec) → Goes R.moment R.state_at (Spares pool g devs) synced.now repaired.now
        → ((h : ℕ → List ℕ) (bearer : Path) → Newest pool p h devs bearer g rec (R.state_at synced.now (R.moment synced.now)) → Keeps R.moment R.state_at (NewestOnly pool p devs g rec) synced.now repaired.now)
        → AllOne pool flex owns p devs (R.state_at start.now (R.moment start.now)) → NoneByChance pool flex owns devs (R.state_at repaired.now (R.moment repaired.now))
        → Keeps R.moment R.state_at (StandsAlike pool flex owns p devs first (R.state_at start.now (R.moment start.now))) start.now repaired.now }
{
    let _ = start;
    let _ = synced;
    let _ = repaired;
}

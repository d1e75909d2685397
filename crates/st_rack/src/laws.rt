//! Laws that hold of every rack: each function does nothing, and its contract is a law over the words of the trait.
ghost use Rattle.std.specs.Prelude.{ℕ, List};
ghost use Rattle.st_rack.specs.Device.{Image, State, Settling};
ghost use Rattle.st_rack.specs.Moments.{AllCut, Goes, LeftSince, OnDevice};
ghost use Rattle.st_rack.specs.Steps.{Changed, LeavesOutside};
ghost use Rattle.st_rack.specs.Tagged.{tagged};
ghost use Rattle.st_rack.specs.Left.{FairlyLeaves, FairlyLeft};
ghost use Rattle.st_rack.specs.Parts.{AreApart, Splits, Joins};

use crate::Rack;
use st_units::{DevList, DevPath};

/// Two runs that change nothing outside `n` bytes of a device make one.
pub fn run_of_two<R: Rack>(old: &R, middle: &R, new: &R, dev: &DevPath)
    ensures { (at n : ℕ) → Goes R.moment R.state_at (OnDevice dev.now (Changed at n)) old.now middle.now → Goes R.moment R.state_at (OnDevice dev.now (Changed at n)) middle.now new.now
        → Goes R.moment R.state_at (OnDevice dev.now (Changed at n)) old.now new.now }
{
    let _ = old;
    let _ = middle;
    let _ = new;
    let _ = dev;
}

/// Outside the bytes that a run changes, a crash at any moment of it leaves what a crash at its start could leave.
pub fn outside_a_run<R: Rack>(old: &R, new: &R, dev: &DevPath)
    ensures { (at n : ℕ) → Goes R.moment R.state_at (OnDevice dev.now (Changed at n)) old.now new.now
        → LeavesOutside dev.now at n (R.state_at old.now (R.moment old.now)) (LeftSince R.moment R.state_at new.now (R.moment old.now)) }
{
    let _ = old;
    let _ = new;
    let _ = dev;
}

/// While a device is synced, with success or without, no image is fairly left that couldn't be left before: shown on the readers
/// of tagged blocks, and it holds of every family of readers, as do the laws below.
pub fn left_after_sync<R: Rack>(rack: &R, dev: &DevPath)
    ensures { (tag : List ℕ) (old new : State) (c : Image) → OnDevice dev.now Settling old new → FairlyLeaves (R.devs rack.now) (tagged tag) new c → FairlyLeaves (R.devs rack.now) (tagged tag) old c }
{
    let _ = rack;
    let _ = dev;
}

/// After a power cut no image is fairly left that couldn't be left before.
pub fn left_after_cycle<R: Rack>(rack: &R)
    ensures { (tag : List ℕ) (old new : State) (c : Image) → AllCut (R.devs rack.now) old new → FairlyLeaves (R.devs rack.now) (tagged tag) new c → FairlyLeaves (R.devs rack.now) (tagged tag) old c }
{
    let _ = rack;
}

/// What a crash fairly leaves of a rack before a split it fairly leaves of both parts, and what it leaves of both it leaves of the whole.
pub fn left_at_split<R: Rack>(old: &R, rest: &R, part: &R, list: &DevList)
    ensures rest { (tag : List ℕ) (c : Image) → Splits R.devs R.moment R.state_at list.now old.now rest.now part.now
        → FairlyLeft R.devs R.moment R.state_at (tagged tag) old.now c → FairlyLeft R.devs R.moment R.state_at (tagged tag) rest.now c }
    ensures part { (tag : List ℕ) (c : Image) → Splits R.devs R.moment R.state_at list.now old.now rest.now part.now
        → FairlyLeft R.devs R.moment R.state_at (tagged tag) old.now c → FairlyLeft R.devs R.moment R.state_at (tagged tag) part.now c }
    ensures whole { (tag : List ℕ) (c : Image) → Splits R.devs R.moment R.state_at list.now old.now rest.now part.now
        → FairlyLeft R.devs R.moment R.state_at (tagged tag) rest.now c → FairlyLeft R.devs R.moment R.state_at (tagged tag) part.now c
        → FairlyLeft R.devs R.moment R.state_at (tagged tag) old.now c }
{
    let _ = old;
    let _ = rest;
    let _ = part;
    let _ = list;
}

/// What a crash fairly leaves of a joined rack it fairly leaves of both that were joined, and what it leaves of both it leaves of the joined one.
pub fn left_at_join<R: Rack>(old: &R, other: &R, new: &R)
    ensures own { (tag : List ℕ) (c : Image) → AreApart R.devs old.now other.now → Joins R.devs R.moment R.state_at old.now other.now new.now
        → FairlyLeft R.devs R.moment R.state_at (tagged tag) new.now c → FairlyLeft R.devs R.moment R.state_at (tagged tag) old.now c }
    ensures other { (tag : List ℕ) (c : Image) → Joins R.devs R.moment R.state_at old.now other.now new.now
        → FairlyLeft R.devs R.moment R.state_at (tagged tag) new.now c → FairlyLeft R.devs R.moment R.state_at (tagged tag) other.now c }
    ensures whole { (tag : List ℕ) (c : Image) → Joins R.devs R.moment R.state_at old.now other.now new.now
        → FairlyLeft R.devs R.moment R.state_at (tagged tag) old.now c → FairlyLeft R.devs R.moment R.state_at (tagged tag) other.now c
        → FairlyLeft R.devs R.moment R.state_at (tagged tag) new.now c }
{
    let _ = old;
    let _ = other;
    let _ = new;
}

ghost use Rattle.std.specs.Prelude.{◌≡◌, ◌+◌, ℕ, nat_le, if◌then◌else◌};
ghost use Rattle.st_rack.specs.Device.{Path};
ghost use Rattle.st_shelf.specs.Shelf.{state_in, is_in};
ghost use Rattle.st_shelf.specs.Past.{depth, was};

use crate::Device;
use std::mem;
use std::snapshot::Snapshot;

/// The states that devices have had, the newest first. Only clauses read it, and it takes no memory.
#[derive(Drop)]
pub enum Past<D> {
    Start,
    /// The devices as they were, and before.
    Then(Snapshot<Vec<D>>, Snapshot<Past<D>>),
    /// The devices as they were, those that joined them, and before.
    Joined(Snapshot<Vec<D>>, Snapshot<Vec<D>>, Snapshot<Past<D>>),
    /// The same past once more.
    Copied(Snapshot<Snapshot<Past<D>>>),
}

/// Notes the devices before a change.
pub fn remember<D: Device>(devices: &Vec<D>, past: &mut Snapshot<Past<D>>)
    ensures depth { depth past.new.value ≡ depth past.old.value + 1 }
    ensures was { (now : _) (k : ℕ) (p : Path) → was D.path_of D.state past.new.value now k p ≡ (if nat_le k (depth past.old.value) then was D.path_of D.state past.old.value (state_in D.path_of D.state devices.now.items) k p else now p) }
{
    let before = mem::replace(past, Snapshot::of(&Past::Start));
    let next = Past::Then(Snapshot::of(devices), before);
    *past = Snapshot::of(&next);
}

/// Notes the devices before others join them, which are taken as having been there all the time.
pub fn remember_joined<D: Device>(devices: &Vec<D>, others: &Vec<D>, past: &mut Snapshot<Past<D>>)
    ensures depth { depth past.new.value ≡ depth past.old.value + 1 }
    ensures was { (now : _) (k : ℕ) (p : Path) → was D.path_of D.state past.new.value now k p ≡ (if nat_le k (depth past.old.value)
        then (if is_in D.path_of others.now.items p then state_in D.path_of D.state others.now.items p else was D.path_of D.state past.old.value (state_in D.path_of D.state devices.now.items) k p) else now p) }
{
    let before = mem::replace(past, Snapshot::of(&Past::Start));
    let joined = Past::Joined(Snapshot::of(devices), Snapshot::of(others), before);
    *past = Snapshot::of(&joined);
}

/// The same past once more.
pub fn copied<D: Device>(past: &Snapshot<Past<D>>) -> Snapshot<Past<D>>
    ensures depth { depth result.value ≡ depth past.now.value }
    ensures was { (now : _) (k : ℕ) (p : Path) → was D.path_of D.state result.value now k p ≡ was D.path_of D.state past.now.value now k p }
{
    let again = Past::Copied(Snapshot::of(past));
    Snapshot::of(&again)
}

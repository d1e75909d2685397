ghost use Rattle.std.specs.Prelude.{◌≡◌, ◌≤◌, ℕ, map, IfOk, OnOk};
ghost use Rattle.st_units.specs.Causes.{Rose};
ghost use Rattle.st_rack.specs.Calls.{path_in};
ghost use Rattle.st_rack.specs.Device.{held};
ghost use Rattle.st_rack.specs.Moments.{Goes, Keeps};
ghost use Rattle.st_commit.specs.Ready.{Settles};
ghost use Rattle.st_model.specs.declared.state.EngineState.{EngineState};
ghost use Rattle.st_parting.specs.Found.{AllSettled, IsFoundOn};
ghost use Rattle.st_assemble.specs.Found.{AreGone};
ghost use Rattle.st_finishing.specs.Finishing.{FoundStill, LeavesStill, StoriesGrow};
ghost use Rattle.st_image.specs.Rack.{IsForeign};
ghost use Rattle.st_opening.specs.Opened.{IsOpened, LeavesAlike};

use st_assemble::{Found, FoundFault, found};
use st_commit::sync_all;
use st_finishing::finish;
use st_judge::GoneList;
use st_rack::Rack;
use st_slots::SlotFault;
use st_units::{DevList, NoMemory};
use std::alloc::Global;

/// Syncs each device, reads what they stand for, and writes the newest record of each pool that is gone to each of its devices that lacks
/// it.
///
/// `Foreign` comes exactly where the devices stand for no state, with the least serial that breaks a rule.
pub fn open<R: Rack>(alloc: Global, rack: &mut R) -> Result<Found, FoundFault>
    ensures devs { R.devs rack.new ≡ R.devs rack.old }
    ensures spare { R.spare rack.new ≡ R.spare rack.old }
    ensures cause { result ≡ Err FoundFault.Fault → Rose (R.faults rack.old) (R.faults rack.new) }
    ensures faults { R.faults rack.old ≤ R.faults rack.new }
    ensures foreign { (n : ℕ) → result ≡ Err (FoundFault.Foreign n) → IsForeign (R.devs rack.old) (held (R.state_at rack.old (R.moment rack.old))) n }
    ensures opened { IfOk result (IsOpened (R.devs rack.old) (R.state_at rack.old (R.moment rack.old)) (R.state_at rack.new (R.moment rack.new))) }

    // At each moment whatever a crash leaves stands for what something stood for that a crash at the start could leave.
    ensures during { Keeps R.moment R.state_at (LeavesAlike (R.devs rack.old) (R.state_at rack.old (R.moment rack.old))) rack.old rack.new }
{
    let _ = rack.devices();
    match sync_rack(alloc, rack) {
        Ok(()) => {}
        Err(fault) => return Err(fault),
    }
    let told = match found(alloc, rack) {
        Ok(told) => told,
        Err(fault) => return Err(fault),
    };
    match finished(alloc, rack, &told.gone) {
        Ok(()) => Ok(told),
        Err(fault) => Err(fault),
    }
}

/// Finishes the pools that are gone.
fn finished<R: Rack>(alloc: Global, rack: &mut R, gone: &GoneList) -> Result<(), FoundFault>
    requires { AreGone (R.devs rack.old) (held (R.state_at rack.old (R.moment rack.old))) gone.now }
    ensures devs { R.devs rack.new ≡ R.devs rack.old }
    ensures spare { R.spare rack.new ≡ R.spare rack.old }
    ensures cause { result ≡ Err FoundFault.Fault → Rose (R.faults rack.old) (R.faults rack.new) }
    ensures faults { R.faults rack.old ≤ R.faults rack.new }
    ensures foreign { (n : ℕ) → result ≡ Err (FoundFault.Foreign n) → ⊥ }
    ensures during { (e : EngineState) → IsFoundOn (R.devs rack.old) (R.state_at rack.old (R.moment rack.old)) e → Keeps R.moment R.state_at (LeavesStill e (R.devs rack.old)) rack.old rack.new }
    ensures grows { Keeps R.moment R.state_at (StoriesGrow (R.state_at rack.old (R.moment rack.old))) rack.old rack.new }
    ensures done { OnOk result ((e : EngineState) → IsFoundOn (R.devs rack.old) (R.state_at rack.old (R.moment rack.old)) e → FoundStill e (R.devs rack.old) (R.state_at rack.new (R.moment rack.new))) }
{
    match finish(alloc, rack, gone) {
        Ok(()) => Ok(()),
        Err(SlotFault::Fault) => Err(FoundFault::Fault),
        Err(SlotFault::OutOfMemory) => Err(FoundFault::OutOfMemory),
    }
}

/// Syncs each device of the rack.
fn sync_rack<R: Rack>(alloc: Global, rack: &mut R) -> Result<(), FoundFault>
    ensures devs { R.devs rack.new ≡ R.devs rack.old }
    ensures spare { R.spare rack.new ≡ R.spare rack.old }
    ensures cause { result ≡ Err FoundFault.Fault → Rose (R.faults rack.old) (R.faults rack.new) }
    ensures faults { R.faults rack.old ≤ R.faults rack.new }
    ensures foreign { (n : ℕ) → result ≡ Err (FoundFault.Foreign n) → ⊥ }
    ensures time { Goes R.moment R.state_at Settles rack.old rack.new }
    ensures settled { OnOk result (AllSettled (R.devs rack.old) (R.state_at rack.new (R.moment rack.new))) }
{
    let _ = rack.devices();
    let list = paths_of(alloc, rack)?;
    match sync_all(rack, &list) {
        Ok(()) => Ok(()),
        Err(_) => Err(FoundFault::Fault),
    }
}

/// The paths of the devices, in order.
fn paths_of<R: Rack>(alloc: Global, rack: &R) -> Result<DevList, NoMemory>
    ensures { IfOk result (λ list. list ≡ map path_in (R.devs rack.now)) }
{
    let mut list = DevList::make(alloc);
    for i in 0..rack.devices() {
        let path = rack.path_of(i).copy()?;
        match list.push(path) {
            Ok(()) => {}
            Err((_, NoMemory)) => return Err(NoMemory),
        }
    }
    Ok(list)
}

ghost use Rattle.std.specs.Prelude.{◌≡◌, ◌≤◌, ℕ, IfOk, OnOk, slice_get};
ghost use Rattle.st_units.specs.Causes.{Rose};
ghost use Rattle.st_rack.specs.Device.{Path, held};
ghost use Rattle.st_rack.specs.Calls.{Has, Rises};
ghost use Rattle.st_rack.specs.Moments.{Goes, Keeps};
ghost use Rattle.st_deltalog.specs.Bearing.{IsSettled};
ghost use Rattle.st_commit.specs.Ready.{AreDistinct, IsOf, Settles};
ghost use Rattle.st_books.specs.Ready.{AreReady};
ghost use Rattle.st_books.specs.declared.books.Books.{Books};
ghost use Rattle.st_starting.specs.declared.outcome.Start.{Start};
ghost use Rattle.st_starting.specs.Alike.{StandsAlike};
ghost use Rattle.st_starting.specs.Found.{TellsOfNone, sized};
ghost use Rattle.st_starting.specs.inner.Finding.{IsFinding};

use crate::finding::{Finding, Newest, find, paths_rise};
use st_commit::{repair, sync_all};
use st_image::pool_area;
use st_rack::Rack;
use st_slots::SlotFault;
use st_units::{DevList, PoolSerial};
use std::alloc::Global;

/// Syncs each device of a pool, and reads what the rack bears of it. It writes nothing.
#[tactic(none)]
pub fn search<R: Rack>(
    alloc: Global,
    rack: &mut R,
    devs: &DevList,
    serial: PoolSerial,
) -> Result<Finding, SlotFault>
    requires distinct { AreDistinct devs.now }
    requires there { (d : Path) → IsOf devs.now d → (n : ℕ) × Has (R.devs rack.old) d n }
    ensures devs { R.devs rack.new ≡ R.devs rack.old }
    ensures spare { R.spare rack.new ≡ R.spare rack.old }
    ensures cause { result ≡ Err SlotFault.Fault → Rose (R.faults rack.old) (R.faults rack.new) }
    ensures faults { R.faults rack.old ≤ R.faults rack.new }

    // At each moment of the call each device is what it was, or that and settled.
    ensures time { Goes R.moment R.state_at Settles rack.old rack.new }
    ensures holds { (d : Path) → (R.state_at rack.new (R.moment rack.new) d).holds ≡ (R.state_at rack.old (R.moment rack.old) d).holds }

    // What is found is told by what the devices read as after the syncs, which change no content. Then nothing is pending on them.
    ensures rises { Rises (R.devs rack.new) }
    ensures found { IfOk result (IsFinding serial (R.devs rack.new) devs.now (held (R.state_at rack.new (R.moment rack.new)))) }
    ensures settled { OnOk result ((d : Path) → IsOf devs.now d → IsSettled (R.state_at rack.new (R.moment rack.new) d)) }
{
    paths_rise(rack);
    sync_all(rack, devs)?;
    find(alloc, rack, devs, serial)
}

/// Writes the newest record of what was found to each device that lacks it, all of which are settled.
#[tactic(none)]
pub fn finish<R: Rack>(
    alloc: Global,
    rack: &mut R,
    devs: &DevList,
    serial: PoolSerial,
    newest: Option<Newest>,
) -> Result<(), SlotFault>
    requires distinct { AreDistinct devs.now }
    requires there { (d : Path) → IsOf devs.now d → (n : ℕ) × Has (R.devs rack.old) d n }
    requires settled { (d : Path) → IsOf devs.now d → IsSettled (R.state_at rack.old (R.moment rack.old) d) }
    requires found { (start : Start) × IsFinding serial (R.devs rack.old) devs.now (held (R.state_at rack.old (R.moment rack.old))) (record { start = start; newest = newest }) }
    ensures devs { R.devs rack.new ≡ R.devs rack.old }
    ensures spare { R.spare rack.new ≡ R.spare rack.old }
    ensures cause { result ≡ Err SlotFault.Fault → Rose (R.faults rack.old) (R.faults rack.new) }
    ensures faults { R.faults rack.old ≤ R.faults rack.new }

    // Whatever a crash leaves at any moment of the call stands for what an image stands for that a crash at its start could leave.
    ensures during { Keeps R.moment R.state_at (StandsAlike serial (sized (R.devs rack.old) devs.now) (R.state_at rack.old (R.moment rack.old))) rack.old rack.new }

    // The devices bear the books that were found.
    ensures ready { (b : Books) → IsFinding serial (R.devs rack.old) devs.now (held (R.state_at rack.old (R.moment rack.old))) (record { start = Start.Ready b; newest = newest }) → OnOk result (AreReady b (R.state_at rack.new (R.moment rack.new))) }
    ensures settled { OnOk result ((d : Path) → IsOf devs.now d → IsSettled (R.state_at rack.new (R.moment rack.new) d)) }

    // Where the pool is gone, its devices are free.
    ensures gone { (g : ℕ) → IsFinding serial (R.devs rack.old) devs.now (held (R.state_at rack.old (R.moment rack.old))) (record { start = Start.Gone g; newest = newest }) → OnOk result ((k : ℕ) (d : Path × ℕ) → slice_get (sized (R.devs rack.old) devs.now) k ≡ Some d → TellsOfNone serial d.1 (R.state_at rack.new (R.moment rack.new) d.0).holds) }
{
    paths_rise(rack);
    let number = serial.number();
    let _ = number;
    match newest {
        None => Ok(()),
        Some(newest) => {
            let Newest {
                generation,
                text,
                mut work,
            } = newest;
            repair(
                alloc,
                rack,
                devs,
                &pool_area(),
                generation,
                text.items(),
                &mut work,
            )
        }
    }
}

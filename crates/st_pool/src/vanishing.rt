ghost use Rattle.std.specs.Prelude.{◌≡◌, ◌≤◌, true, ℕ, IsTrue, Option};
ghost use Rattle.st_model.specs.declared.state.PoolState.{PoolState};
ghost use Rattle.st_model.specs.Step.{can_start};
ghost use Rattle.st_rack.specs.Device.{Path};
ghost use Rattle.st_rack.specs.Calls.{Has};
ghost use Rattle.st_commit.specs.Ready.{IsOf};
ghost use Rattle.st_starting.specs.declared.finding.Newest.{Newest};
ghost use Rattle.st_starting.specs.declared.outcome.Start.TheVariants.{Gone, Nothing};
ghost use Rattle.st_pool.specs.Halts.{Halts};
ghost use Rattle.st_pool.specs.Starts.{DidStart};
ghost use Rattle.st_pool.specs.inner.Wakings.{AreLarge, IsEnded, IsSought, IsUnmade};

use crate::halted::Halted;
use crate::meeting::{ends, is_unmade};
use crate::started::Started;
use crate::starting::leave;
use st_clearing::clear;
use st_limits::MIN_DEVICE_SECTORS;
use st_model::Env;
use st_rack::Rack;
use st_slots::SlotFault;
use st_starting::{Newest, finish};
use st_units::{Bytes, DevList, DevPath};
use std::alloc::Global;

/// What becomes of a halted pool of which no record is there.
#[tactic(none)]
pub fn unmade<R: Rack>(alloc: Global, halted: Halted<R>) -> Started<R>
    requires { (newest : Option Newest) × IsSought R.devs R.moment R.state_at halted (record { start = Nothing; newest = newest }) }
    ensures { (pool : PoolState) → Halts R.devs R.moment R.state_at pool halted → can_start pool.mode ≡ true → DidStart R.devs R.moment R.state_at R.faults pool halted result }
{
    if !is_unmade(halted.flight.as_ref()) {
        return untouched(halted);
    }
    if !are_large(&halted.rack, &halted.devs) {
        return untouched(halted);
    }
    empty(alloc, halted)
}

/// Nothing is done.
#[tactic(none)]
pub fn untouched<R: Rack>(halted: Halted<R>) -> Started<R>
    ensures { (pool : PoolState) → Halts R.devs R.moment R.state_at pool halted → can_start pool.mode ≡ true → DidStart R.devs R.moment R.state_at R.faults pool halted result }
{
    let faults = halted.faults();
    let _ = faults;
    Started::NoMemory(halted)
}

/// Whether each device has room for the records of a pool.
fn are_large<R: Rack>(rack: &R, devs: &DevList) -> bool
    ensures { IsTrue result → AreLarge (R.devs rack.now) devs.now }
{
    for i in 0..devs.len() {
        if !is_large(rack, devs.at(i)) {
            return false;
        }
    }
    true
}

fn is_large<R: Rack>(rack: &R, dev: &DevPath) -> bool
    ensures { IsTrue result → (n : ℕ) × Has (R.devs rack.now) dev.now n × (8192 ≤ n) }
{
    match rack.sectors(dev) {
        None => false,
        Some(sectors) => sectors >= MIN_DEVICE_SECTORS,
    }
}

/// Clears the devices of a pool that was to be made.
#[tactic(none)]
fn empty<R: Rack>(alloc: Global, halted: Halted<R>) -> Started<R>
    requires sought { (newest : Option Newest) × IsSought R.devs R.moment R.state_at halted (record { start = Nothing; newest = newest }) }
    requires making { IsUnmade halted.flight }
    requires large { AreLarge (R.devs halted.rack) halted.devs }
    ensures { (pool : PoolState) → Halts R.devs R.moment R.state_at pool halted → can_start pool.mode ≡ true → DidStart R.devs R.moment R.state_at R.faults pool halted result }
{
    let Halted {
        serial,
        devs,
        mut rack,
        flight,
        faults,
    } = halted;
    match clear(&mut rack, &devs) {
        Ok(()) => Started::Vanished(rack, Env::Before(Bytes::make(alloc))),
        Err(_) => leave(
            Halted {
                serial,
                devs,
                rack,
                flight,
                faults,
            },
            SlotFault::Fault,
        ),
    }
}

/// What becomes of a halted pool whose newest record, of this generation, says that it is gone.
#[tactic(none)]
pub fn ended<R: Rack>(
    alloc: Global,
    halted: Halted<R>,
    generation: u64,
    newest: Option<Newest>,
) -> Started<R>
    requires { IsSought R.devs R.moment R.state_at halted (record { start = Gone generation; newest = newest }) }
    ensures { (pool : PoolState) → Halts R.devs R.moment R.state_at pool halted → can_start pool.mode ≡ true → DidStart R.devs R.moment R.state_at R.faults pool halted result }
{
    if ends(halted.flight.as_ref(), generation) {
        bury(alloc, halted, generation, newest)
    } else {
        untouched(halted)
    }
}

/// Writes that it is gone to each device that lacks it.
#[tactic(none)]
fn bury<R: Rack>(
    alloc: Global,
    halted: Halted<R>,
    generation: u64,
    newest: Option<Newest>,
) -> Started<R>
    requires sought { IsSought R.devs R.moment R.state_at halted (record { start = Gone generation; newest = newest }) }
    requires ended { IsEnded halted.flight generation }
    ensures { (pool : PoolState) → Halts R.devs R.moment R.state_at pool halted → can_start pool.mode ≡ true → DidStart R.devs R.moment R.state_at R.faults pool halted result }
{
    let _ = generation;
    let Halted {
        serial,
        devs,
        mut rack,
        flight,
        faults,
    } = halted;
    match finish(alloc, &mut rack, &devs, serial, newest) {
        Ok(()) => Started::Vanished(rack, Env::After),
        Err(fault) => leave(
            Halted {
                serial,
                devs,
                rack,
                flight,
                faults,
            },
            fault,
        ),
    }
}

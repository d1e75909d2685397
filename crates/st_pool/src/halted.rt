ghost use Rattle.std.specs.Prelude.{◌≡◌, ◌≤◌, ◌∷◌, [], None, Some, true, false, option_copied, option_map};
ghost use Rattle.st_model.specs.declared.call.Call.TheVariants.{StopPool};
ghost use Rattle.st_model.specs.declared.entry.Env.TheVariants.{Plain};
ghost use Rattle.st_model.specs.declared.reply.Given.TheVariants.{Changed};
ghost use Rattle.st_model.specs.declared.reply.Identity.TheVariants as identities;
ghost use Rattle.st_model.specs.declared.state.PoolState.{PoolState};
ghost use Rattle.st_model.specs.Answer.{accepted};
ghost use Rattle.st_model.specs.Checks.{halted};
ghost use Rattle.st_model.specs.Look.{is_started};
ghost use Rattle.st_model.specs.Step.{can_start, step};
ghost use Rattle.st_rack.specs.Moments.{AllCut, Goes};
ghost use Rattle.st_image.specs.Bears.{paths};
ghost use Rattle.st_image.specs.Kept.{Kept, in_use};
ghost use Rattle.st_pool.specs.Halts.{Halts, IsQuiet, flown};
ghost use Rattle.st_pool.specs.View.{IsOwn, engine_of};

use crate::flight::Flight;
use crate::pool::Pool;
use st_books::Books;
use st_model::Call;
use st_rack::Rack;
use st_units::{DevList, PoolSerial};
use std::marker::Model;

/// A pool that isn't started, on a rack of its own devices.
pub struct Halted<R: Rack> {
    pub(crate) serial: PoolSerial,
    /// The devices in use.
    pub(crate) devs: DevList,
    pub(crate) rack: R,
    /// Its books where they are known, with the call in flight.
    pub(crate) flight: Option<Flight>,
    pub(crate) faults: u64,
}

impl<R: Rack> Model for Halted<R> {
    ghost use Rattle.std.specs.Prelude.{◌≤◌};
    ghost use Rattle.st_pool.specs.Halts.{HaltedView};

    ghost Value = { HaltedView R };

    ghost view = { λ h. record { serial = h.serial; devs = h.devs; rack = h.rack; flight = h.flight; faults = h.faults } };

    ghost invariant = { λ h. h.faults ≤ R.faults h.rack };
}

/// The call with the books, where there is a call.
fn with_books(flight: Option<Call>, books: Books) -> Option<Flight>
    ensures { result ≡ option_map (λ call. record { call = Some call; books = books }) flight }
{
    match flight {
        Some(call) => Some(Flight {
            call: Some(call),
            books,
        }),
        None => None,
    }
}

impl<R: Rack> Pool<R> {
    /// Stops the pool. It makes no device call and takes no memory.
    #[tactic(none)]
    pub fn stop(self) -> Halted<R>
        ensures halts { Halts R.devs R.moment R.state_at (halted self.pool) result }
        ensures starts { can_start (halted self.pool).mode ≡ true }
        ensures replied { (step (engine_of self.pool (R.devs self.rack)) (StopPool self.pool.name) Plain).0 ≡ accepted (Changed true (Some (identities.Pool self.pool.serial))) }
        ensures becomes { (step (engine_of self.pool (R.devs self.rack)) (StopPool self.pool.name) Plain).1.pools ≡ halted self.pool ∷ [] }
        ensures rack { result.rack ≡ self.rack }
        ensures faults { result.faults ≡ self.faults }
    {
        let Pool {
            rack,
            devs,
            books,
            flight,
            shown: _,
            spare: _,
            faults,
            seen: _,
        } = self;
        Halted {
            serial: PoolSerial::of(books.rec.serial),
            devs,
            rack,
            flight: with_books(flight, books),
            faults,
        }
    }
}

impl<R: Rack> Halted<R> {
    /// A pool that a rack's devices stand for, before any operation of it.
    #[tactic(none)]
    pub fn found(serial: PoolSerial, devs: DevList, rack: R) -> Halted<R>
        ensures halts { (pool : PoolState) → is_started pool.mode ≡ false → serial ≡ pool.serial → paths (in_use pool (R.devs rack)) ≡ devs → IsOwn pool (R.devs rack) → IsQuiet pool (R.devs rack) devs (R.state_at rack (R.moment rack)) → Kept pool (R.devs rack) (R.state_at rack (R.moment rack)) → Halts R.devs R.moment R.state_at pool result }
        ensures is { result ≡ record { serial = serial; devs = devs; rack = rack; flight = None; faults = 0 } }
    {
        Halted {
            serial,
            devs,
            rack,
            flight: None,
            faults: 0,
        }
    }

    /// Cuts the power of the rack and turns it on again.
    #[tactic(none)]
    pub fn cycle(&mut self)
        ensures cut { AllCut (R.devs self.old.rack) (R.state_at self.old.rack (R.moment self.old.rack)) (R.state_at self.new.rack (R.moment self.new.rack)) }
        ensures time { Goes R.moment R.state_at (AllCut (R.devs self.old.rack)) self.old.rack self.new.rack }
        ensures halts { (pool : PoolState) → Halts R.devs R.moment R.state_at pool self.old → Halts R.devs R.moment R.state_at pool self.new }
        ensures same { self.new ≡ record self.old { rack = self.new.rack } }
        ensures devs { R.devs self.new.rack ≡ R.devs self.old.rack }
        ensures reads { R.reads self.new.rack ≡ R.reads self.old.rack }
        ensures spare { R.spare self.new.rack ≡ R.spare self.old.rack }
        ensures counted { R.faults self.new.rack ≡ R.faults self.old.rack }
    {
        self.rack.cycle();
    }

    /// How many operations on the pool were answered with a fault of a device, up to 2^64 - 1.
    #[tactic(none)]
    pub fn faults(&self) -> u64
        ensures count { result ≡ self.now.faults }
        ensures most { result ≤ R.faults self.now.rack }
    {
        self.faults
    }

    /// Its serial.
    #[tactic(none)]
    pub fn serial(&self) -> PoolSerial
        ensures { result ≡ self.now.serial }
    {
        self.serial
    }

    /// Its devices in use, in the order in which it took them.
    #[tactic(none)]
    pub fn devices(&self) -> &DevList
        ensures { result.now ≡ self.now.devs }
    {
        &self.devs
    }

    /// The call that is in flight, where there is one.
    pub fn flight(&self) -> Option<&Call>
        ensures { option_copied result ≡ flown self.now.flight }
    {
        match &self.flight {
            Some(flight) => flight.call.as_ref(),
            None => None,
        }
    }

    /// The rack of its devices, to look at.
    #[tactic(none)]
    pub fn rack(&self) -> &R
        ensures { result.now ≡ self.now.rack }
    {
        &self.rack
    }

    /// The rack of its devices.
    pub fn part(self) -> R
        ensures { result ≡ self.rack }
    {
        let Halted {
            serial: _,
            devs: _,
            rack,
            flight: _,
            faults: _,
        } = self;
        rack
    }
}

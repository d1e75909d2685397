ghost use Rattle.std.specs.Prelude.{◌≡◌, ◌≤◌, [], true, IfOk};
ghost use Rattle.st_slots.specs.declared.spot.SlotFault.TheVariants as faulty;
ghost use Rattle.st_poolrec.specs.Record.{is_record};
ghost use Rattle.st_model.specs.declared.state.PoolState.{PoolState};
ghost use Rattle.st_model.specs.Shown.{pool_info};
ghost use Rattle.st_model.specs.Step.{can_start};
ghost use Rattle.st_rack.specs.Device.{Image};
ghost use Rattle.st_image.specs.Rack.{IsSerial};
ghost use Rattle.st_starting.specs.declared.outcome.Start.TheVariants.{Ready};
ghost use Rattle.st_pool.specs.Answered.{counted};
ghost use Rattle.st_pool.specs.Halts.{Halts};
ghost use Rattle.st_pool.specs.Starts.{DidStart, HaltsSome};
ghost use Rattle.st_pool.specs.View.{pool_with};
ghost use Rattle.st_pool.specs.inner.Plans.{AreTwins};
ghost use Rattle.st_pool.specs.inner.Wakings.{IsSought, IsTold, known, left};

use crate::beginning::infos_of;
use crate::flight::Flight;
use crate::halted::Halted;
use crate::meeting::met;
use crate::planning::Twins;
use crate::pool::{Pool, standing};
use crate::started::Started;
use crate::vanishing::{ended, unmade, untouched};
use st_books::Books;
use st_model::Env;
use st_rack::Rack;
use st_slots::SlotFault;
use st_starting::{Finding, Newest, Start, finish, search};
use st_told::told;
use st_units::NoMemory;
use std::alloc::Global;

impl<R: Rack> Pool<R> {
    /// Starts a halted pool: syncs its devices, reads them, and writes its newest record where it is missing. Where the pool is known no
    /// more its devices become free.
    #[tactic(none)]
    pub fn start(alloc: Global, halted: Halted<R>) -> Started<R>
        requires some { HaltsSome R.devs R.moment R.state_at halted }
        ensures { (pool : PoolState) → Halts R.devs R.moment R.state_at pool halted → can_start pool.mode ≡ true → DidStart R.devs R.moment R.state_at R.faults pool halted result }
    {
        let Halted {
            serial,
            devs,
            mut rack,
            flight,
            faults,
        } = halted;
        let number = serial.number();
        let _ = number;
        match search(alloc, &mut rack, &devs, serial) {
            Err(fault) => leave(
                Halted {
                    serial,
                    devs,
                    rack,
                    flight,
                    faults,
                },
                fault,
            ),
            Ok(finding) => settle(
                alloc,
                Halted {
                    serial,
                    devs,
                    rack,
                    flight,
                    faults,
                },
                finding,
            ),
        }
    }
}

/// What becomes of a pool that stays halted for this fault.
#[tactic(none)]
pub fn leave<R: Rack>(halted: Halted<R>, fault: SlotFault) -> Started<R>
    requires { fault ≡ faulty.Fault → counted true halted.faults ≤ R.faults halted.rack }
    ensures { result ≡ left fault halted }
{
    match fault {
        SlotFault::OutOfMemory => Started::NoMemory(halted),
        SlotFault::Fault => {
            let Halted {
                serial,
                devs,
                rack,
                flight,
                faults,
            } = halted;
            Started::Fault(Halted {
                serial,
                devs,
                rack,
                flight,
                faults: faults.saturating_add(1),
            })
        }
    }
}

/// What becomes of a halted pool whose devices were synced, by what was found on them.
#[tactic(none)]
fn settle<R: Rack>(alloc: Global, halted: Halted<R>, finding: Finding) -> Started<R>
    requires { IsSought R.devs R.moment R.state_at halted finding }
    ensures { (pool : PoolState) → Halts R.devs R.moment R.state_at pool halted → can_start pool.mode ≡ true → DidStart R.devs R.moment R.state_at R.faults pool halted result }
{
    let Finding { start, newest } = finding;
    match start {
        Start::Ready(books) => wake(alloc, halted, books, newest),
        Start::Nothing => unmade(alloc, halted),
        Start::Gone(generation) => ended(alloc, halted, generation, newest),
        Start::Broken => untouched(halted),
    }
}

/// So where its devices bear these books.
#[tactic(none)]
fn wake<R: Rack>(
    alloc: Global,
    halted: Halted<R>,
    books: Books,
    newest: Option<Newest>,
) -> Started<R>
    requires { IsSought R.devs R.moment R.state_at halted (record { start = Ready books; newest = newest }) }
    ensures { (pool : PoolState) → Halts R.devs R.moment R.state_at pool halted → can_start pool.mode ≡ true → DidStart R.devs R.moment R.state_at R.faults pool halted result }
{
    match met(alloc, halted.flight.as_ref(), &books) {
        None => untouched(halted),
        Some(env) => raise(alloc, halted, books, newest, env),
    }
}

/// And where this was met.
#[tactic(none)]
fn raise<R: Rack>(
    alloc: Global,
    halted: Halted<R>,
    books: Books,
    newest: Option<Newest>,
    env: Env,
) -> Started<R>
    requires sought { IsSought R.devs R.moment R.state_at halted (record { start = Ready books; newest = newest }) }
    requires told { IsTold halted.flight books env }
    ensures { (pool : PoolState) → Halts R.devs R.moment R.state_at pool halted → can_start pool.mode ≡ true → DidStart R.devs R.moment R.state_at R.faults pool halted result }
{
    match infos(alloc, &books) {
        Err(_) => untouched(halted),
        Ok(infos) => bring_up(alloc, halted, books, newest, env, infos),
    }
}

/// Infos of a pool that is up with these books.
#[tactic(none)]
fn infos(alloc: Global, books: &Books) -> Result<Twins, NoMemory>
    requires serial { IsSerial books.now.rec.serial }
    requires valid { is_record books.now.rec ≡ true }
    requires filesystems { books.now.flex.filesystems ≡ [] }
    requires mappings { books.now.flex.mappings ≡ [] }
    ensures { IfOk result (λ infos. (m : Image) → AreTwins (pool_info (pool_with books.now None m)) infos) }
{
    match told(alloc, books) {
        Err(_) => Err(NoMemory),
        Ok(pool) => infos_of(alloc, &pool),
    }
}

/// Writes its newest record where it is missing: then it is up.
#[tactic(none)]
fn bring_up<R: Rack>(
    alloc: Global,
    halted: Halted<R>,
    books: Books,
    newest: Option<Newest>,
    env: Env,
    infos: Twins,
) -> Started<R>
    requires sought { IsSought R.devs R.moment R.state_at halted (record { start = Ready books; newest = newest }) }
    requires told { IsTold halted.flight books env }
    requires infos { (m : Image) → AreTwins (pool_info (pool_with books None m)) infos }
    ensures { (pool : PoolState) → Halts R.devs R.moment R.state_at pool halted → can_start pool.mode ≡ true → DidStart R.devs R.moment R.state_at R.faults pool halted result }
{
    let Halted {
        serial,
        devs,
        mut rack,
        flight,
        faults,
    } = halted;
    match finish(alloc, &mut rack, &devs, serial, newest) {
        Ok(()) => Started::Up(standing(rack, devs, books, None, infos, faults), env),
        Err(fault) => leave(
            Halted {
                serial,
                devs,
                rack,
                flight: Some(known(flight, books)),
                faults,
            },
            fault,
        ),
    }
}

/// The pool's books as they are known once these were found.
fn known(flight: Option<Flight>, books: Books) -> Flight
    ensures { result ≡ known flight books }
{
    match flight {
        Some(flight) => flight,
        None => Flight { call: None, books },
    }
}

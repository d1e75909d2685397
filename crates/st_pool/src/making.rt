ghost use Rattle.std.specs.Prelude.{◌≡◌, true, Some};
ghost use Rattle.st_units.specs.declared.cause.Cause.TheVariants.{DeviceFault};
ghost use Rattle.st_model.specs.declared.entry.Env.TheVariants.{FaultWrite, Plain};
ghost use Rattle.st_model.specs.declared.reply.Given.TheVariants.{Created};
ghost use Rattle.st_model.specs.Answer.{accepted, refused};
ghost use Rattle.st_pool.specs.Makes.{Makes, MayTake};

use crate::beginning::{Begun, Broken, Making, ready};
use crate::made::Made;
use crate::pool::{Pool, standing};
use st_rack::Rack;
use st_units::{DevList, Name, PoolSerial};
use std::alloc::Global;

impl<R: Rack> Pool<R> {
    /// Makes a pool on all devices of a rack, which are free for it. That no pool of the engine has the name is the caller's to know.
    #[tactic(none)]
    pub fn make(alloc: Global, name: Name, serial: PoolSerial, devs: DevList, rack: R) -> Made<R>
        requires may { MayTake serial devs (R.devs rack) (R.state_at rack (R.moment rack)) }
        ensures ready { (pool : _) → result ≡ Made.Ready pool → Makes R.devs R.moment R.state_at R.faults serial name devs Plain (accepted (Created true (Some (serial, devs)))) rack pool }
        ensures broken { (pool : _) → result ≡ Made.Broken pool → Makes R.devs R.moment R.state_at R.faults serial name devs FaultWrite (refused DeviceFault) rack pool }
        ensures refused { (back : _) → result ≡ Made.NoMemory back → back ≡ rack }
    {
        let Making { begun, broken } = match ready(alloc, serial, name, &devs, &rack) {
            Ok(plan) => plan,
            Err(_) => return Made::NoMemory(rack),
        };
        let Begun {
            books,
            first,
            infos,
        } = begun;
        let mut rack = rack;
        match st_making::make(&mut rack, &devs, &books, first) {
            Ok(()) => Made::Ready(standing(rack, devs, books, None, infos, 0)),
            Err(_) => {
                let Broken { books, call, infos } = broken;
                Made::Broken(standing(rack, devs, books, Some(call), infos, 1))
            }
        }
    }
}

ghost use Rattle.std.specs.Prelude.{◌≡◌, [], true, false, Some, None, IfOk, option_copied};
ghost use Rattle.st_model.specs.declared.call.Call.TheVariants.{RenamePool};
ghost use Rattle.st_model.specs.declared.entry.Env.TheVariants.{Plain};
ghost use Rattle.st_model.specs.declared.reply.Reply.{Reply};
ghost use Rattle.st_model.specs.Look.{flight_of, gives_name};
ghost use Rattle.st_pool.specs.Answered.{answered};
ghost use Rattle.st_pool.specs.Runs.{Runs, never_low};
ghost use Rattle.st_pool.specs.inner.Plans.{MayCommit};
ghost use Rattle.st_pool.specs.inner.Renames.{IsReady};

use crate::answers::{changed, device_fault, no_memory, plainly};
use crate::planning::{Plan, Twins, plan_of, record_with, refusal, twins_of};
use crate::pool::Pool;
use crate::reply::PoolReply;
use st_books::{Books, commit_next};
use st_model::{Call, Given, PoolInfo, Reply};
use st_rack::Rack;
use st_units::{Name, NoMemory, PoolSerial};
use std::alloc::Global;
use std::snapshot::Snapshot;

/// What a rename is answered without a commit, or what its commit takes.
#[derive(Drop)]
pub enum Renaming {
    Answered(PoolReply),
    /// The commit, and the infos of the pool after it.
    Planned(Plan, Twins),
}

/// Makes a rename ready.
fn ready(
    alloc: Global,
    books: &Books,
    flight: Option<&Call>,
    info: &PoolInfo,
    new: Name,
) -> Result<Renaming, NoMemory>
    requires may { option_copied flight ≡ None → MayCommit books.now }
    requires bare { info.now.filesystems ≡ [] }
    ensures { IfOk result (IsReady books.now (option_copied flight.entry) info.now new) }
{
    if books.rec.name.bytes() == new.bytes() {
        return Ok(Renaming::Answered(plainly(
            Reply::accepted(Given::Changed(false, None)),
            Reply::accepted(Given::Changed(false, None)),
        )));
    }
    if let Some(answer) = refusal(books, flight)? {
        return Ok(Renaming::Answered(answer));
    }
    let done = twins_of(alloc, info, &new, info.mode)?;
    let call = Call::RenamePool {
        name: books.rec.name.copy()?,
        new: new.copy()?,
    };
    let rec = record_with(alloc, &books.rec, new, false)?;
    Ok(Renaming::Planned(plan_of(alloc, books, info, rec, call)?, done))
}

impl<R: Rack> Pool<R> {
    /// Gives the pool another name. That no pool of the engine has it, nor gets it by a rename in flight, is the caller's to know.
    #[tactic(none)]
    pub fn rename(&mut self, alloc: Global, new: Name) -> PoolReply
        requires free { gives_name new (flight_of self.old.pool.mode) ≡ false }
        ensures { Runs R.devs R.moment R.state_at R.faults never_low (RenamePool self.old.pool.name new) self.old result self.new }
    {
        match ready(
            alloc,
            &self.books,
            self.flight.as_ref(),
            self.shown.value(),
            new,
        ) {
            Err(_) => no_memory(),
            Ok(Renaming::Answered(answer)) => answer,
            Ok(Renaming::Planned(plan, done)) => {
                match commit_next(&mut self.rack, &self.devs, &mut self.books, plan.next) {
                    Ok(()) => {
                        self.shown = done.own;
                        self.spare = Some(done.spare);
                        self.seen = Snapshot::of(&self.rack);
                        changed(PoolSerial::of(self.books.rec.serial))
                    }
                    Err(_) => {
                        self.flight = Some(plan.call);
                        self.shown = plan.down.own;
                        self.spare = Some(plan.down.spare);
                        self.faults = self.faults.saturating_add(1);
                        device_fault()
                    }
                }
            }
        }
    }
}

ghost use Rattle.std.specs.Prelude.{◌≡◌, [], true, Some, None, IfOk, option_copied};
ghost use Rattle.st_model.specs.declared.call.Call.TheVariants.{DestroyPool};
ghost use Rattle.st_pool.specs.Answered.{failed};
ghost use Rattle.st_pool.specs.Ends.{IsGone};
ghost use Rattle.st_pool.specs.Runs.{Runs, never_low};
ghost use Rattle.st_pool.specs.inner.Plans.{MayCommit};
ghost use Rattle.st_pool.specs.inner.Endings.{IsReady};

use crate::answers::no_memory;
use crate::ended::Ended;
use crate::planning::{Plan, plan_of, record_with, refusal};
use crate::pool::Pool;
use crate::reply::PoolReply;
use st_books::{Books, commit_next};
use st_model::{Call, PoolInfo};
use st_rack::Rack;
use st_units::NoMemory;
use std::alloc::Global;

/// What an end is answered without a commit, or what its commit takes.
#[derive(Drop)]
pub enum Ending {
    Answered(PoolReply),
    Planned(Plan),
}

/// Makes an end ready.
fn ready(
    alloc: Global,
    books: &Books,
    flight: Option<&Call>,
    info: &PoolInfo,
) -> Result<Ending, NoMemory>
    requires may { option_copied flight ≡ None → MayCommit books.now }
    requires bare { info.now.filesystems ≡ [] }
    ensures { IfOk result (IsReady books.now (option_copied flight.entry) info.now) }
{
    if let Some(answer) = refusal(books, flight)? {
        return Ok(Ending::Answered(answer));
    }
    let call = Call::DestroyPool {
        name: books.rec.name.copy()?,
    };
    let rec = record_with(alloc, &books.rec, books.rec.name.copy()?, true)?;
    Ok(Ending::Planned(plan_of(alloc, books, info, rec, call)?))
}

impl<R: Rack> Pool<R> {
    /// Ends the pool: its last record says that it is gone.
    #[tactic(none)]
    pub fn end(self, alloc: Global) -> Ended<R>
        ensures gone { (rack : _) → result ≡ Ended.Gone rack → IsGone R.devs R.moment R.state_at R.faults self rack }
        ensures kept { (pool answer : _) → result ≡ Ended.Kept pool answer → Runs R.devs R.moment R.state_at R.faults never_low (DestroyPool self.pool.name) self answer pool × (pool ≡ self) }
        ensures broken { (pool : _) → result ≡ Ended.Broken pool → Runs R.devs R.moment R.state_at R.faults never_low (DestroyPool self.pool.name) self failed pool }
    {
        match ready(alloc, &self.books, self.flight.as_ref(), self.shown.value()) {
            Err(_) => Ended::Kept(self, no_memory()),
            Ok(Ending::Answered(answer)) => Ended::Kept(self, answer),
            Ok(Ending::Planned(plan)) => {
                let Pool {
                    mut rack,
                    devs,
                    mut books,
                    flight: _,
                    shown: _,
                    spare: _,
                    faults,
                    seen,
                } = self;
                match commit_next(&mut rack, &devs, &mut books, plan.next) {
                    Ok(()) => Ended::Gone(rack),
                    Err(_) => Ended::Broken(Pool {
                        rack,
                        devs,
                        books,
                        flight: Some(plan.call),
                        shown: plan.down.own,
                        spare: Some(plan.down.spare),
                        faults: faults.saturating_add(1),
                        seen,
                    }),
                }
            }
        }
    }
}

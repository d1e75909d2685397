ghost use Rattle.std.specs.Prelude.{◌≡◌, ◌≤◌, false, true, IfNone, IfSome, Some, option_copied};
ghost use Rattle.st_model.specs.Shown.{pool_info};
ghost use Rattle.st_image.specs.Bears.{paths};
ghost use Rattle.st_image.specs.Kept.{Kept, in_use};
ghost use Rattle.st_pool.specs.Known.{IsPool};
ghost use Rattle.st_pool.specs.View.{mode_with, view_of};

use crate::planning::Twins;
use st_books::Books;
use st_model::{Call, PoolInfo};
use st_rack::Rack;
use st_units::{DevList, Shared};
use std::marker::Model;
use std::snapshot::Snapshot;

/// A started pool, on a rack of its own devices. Contracts see the state that it stands for, its rack, whether it has an info to give,
/// and how many of its operations were answered with a fault of a device.
pub struct Pool<R: Rack> {
    pub(crate) rack: R,
    /// The devices in use.
    pub(crate) devs: DevList,
    pub(crate) books: Books,
    /// The call whose write failed.
    pub(crate) flight: Option<Call>,
    /// What an info shows of the present state.
    pub(crate) shown: Shared<PoolInfo>,
    /// One more of the same, to give.
    pub(crate) spare: Option<Shared<PoolInfo>>,
    pub(crate) faults: u64,
    /// The rack as it was when the state was last settled.
    pub(crate) seen: Snapshot<R>,
}

impl<R: Rack> Model for Pool<R> {
    ghost use Rattle.std.specs.Prelude.{is_some};
    ghost use Rattle.st_pool.specs.View.{PoolView, view_of};
    ghost use Rattle.st_pool.specs.Known.{IsPool};

    ghost Value = { PoolView R };

    ghost view = { λ p. view_of R.moment R.state_at p.books p.flight (is_some p.spare) p.rack p.seen.value p.faults };

    ghost invariant = { λ p. IsPool R.devs R.moment R.state_at R.faults p.books p.flight p.devs p.shown p.spare p.rack p.seen.value p.faults };
}

/// A pool with these books, and a call in flight if there is one, as it is now.
#[tactic(none)]
pub(crate) fn standing<R: Rack>(
    rack: R,
    devs: DevList,
    books: Books,
    flight: Option<Call>,
    infos: Twins,
    faults: u64,
) -> Pool<R>
    requires { IsPool R.devs R.moment R.state_at R.faults books flight devs infos.own (Some infos.spare) rack rack faults }
    ensures { result ≡ view_of R.moment R.state_at books flight true rack rack faults }
{
    let seen = Snapshot::of(&rack);
    Pool {
        rack,
        devs,
        books,
        flight,
        shown: infos.own,
        spare: Some(infos.spare),
        faults,
        seen,
    }
}

impl<R: Rack> Pool<R> {
    /// An info of the present state.
    #[tactic(none)]
    pub fn view(&self) -> &PoolInfo
        ensures shown { result.now ≡ pool_info self.now.pool }
        ensures kept { Kept self.now.pool (R.devs self.now.rack) (R.state_at self.now.rack (R.moment self.now.rack)) }
    {
        self.shown.value()
    }

    /// Hands the info to give over, None where there is none. It takes no memory and changes nothing else.
    #[tactic(none)]
    pub fn info(&mut self) -> Option<Shared<PoolInfo>>
        ensures some { IfSome result (λ i. (self.old.spare ≡ true) × (i ≡ pool_info self.old.pool)) }
        ensures none { IfNone result (self.old.spare ≡ false) }
        ensures spent { self.new ≡ record self.old { spare = false } }
    {
        self.spare.take()
    }

    /// The call whose write failed, where it is down.
    #[tactic(none)]
    pub fn flight(&self) -> Option<&Call>
        ensures { self.now.pool.mode ≡ mode_with (option_copied result) }
    {
        self.flight.as_ref()
    }

    /// The devices in use, in the order in which the pool took them.
    #[tactic(none)]
    pub fn devices(&self) -> &DevList
        ensures { result.now ≡ paths (in_use self.now.pool (R.devs self.now.rack)) }
    {
        &self.devs
    }

    /// How many operations on the pool were answered with a fault of a device, up to 2^64 - 1.
    #[tactic(none)]
    pub fn faults(&self) -> u64
        ensures count { result ≡ self.now.faults }
        ensures most { result ≤ R.faults self.now.rack }
    {
        self.faults
    }
}

ghost use Rattle.std.specs.Prelude.{◌≡◌, true, false, IfSome, IfNone, IsSome};

use crate::info::PoolInfo;
use st_units::{Name, Shared};

/// What has a name.
pub trait Named {
    ghost use Rattle.st_model.specs.Look.{Text};

    ghost named: { Self → Text };

    fn name(&self) -> &Name
        ensures { result.now ≡ named self.now };
}

/// A started pool. Contracts see the state that it stands for, whether its devices keep that
/// state, whether it has a spare info, and its number of faults.
pub trait Cell: Named {
    ghost use Rattle.std.specs.Prelude.{ℕ, Bool};
    ghost use Rattle.st_model.specs.declared.info.PoolInfo.{PoolInfo};
    ghost use Rattle.st_model.specs.declared.state.PoolState.{PoolState};
    ghost use Rattle.st_model.specs.Shown.{pool_info};

    /// What a report shows of a pool.
    type Info: Named + Send + Sync + Drop;

    ghost state: { Self → PoolState };

    /// The test: the pool's devices keep its state.
    ghost is_kept: { Self → Type 0 };

    /// A spare info stands, which shows the present state.
    ghost has_spare: { Self → Bool };

    /// How many operations on the pool were answered with a fault of a device.
    ghost fault_count: { Self → ℕ };

    /// What an info shows.
    ghost shows: { Self.Info → PoolInfo };

    /// Hands the spare over, None where there is none. It takes no memory and changes nothing else.
    fn info(&mut self) -> Option<Shared<Self::Info>>
        ensures spare { IsSome result → has_spare self.old ≡ true }
        ensures none { IfNone result (has_spare self.old ≡ false) }
        ensures shown { IfSome result (λ i. shows i ≡ pool_info (state self.old)) }
        ensures spent { has_spare self.new ≡ false }
        ensures state { state self.new ≡ state self.old }
        ensures kept { is_kept self.old → is_kept self.new }
        ensures faults { fault_count self.new ≡ fault_count self.old };

    /// The number of faults, which stops at its last value.
    fn faults(&self) -> u64
        ensures { result ≡ fault_count self.now };

    /// A cell's name is the name in its state.
    ghost name_is: { (c : Self) → Self.named c ≡ (state c).name };

    /// An info's name is that of the pool that it shows.
    ghost info_name_is: { (i : Self.Info) → Self.Info.named i ≡ (shows i).name };
}

/// The table of pools. Contracts see what it stands for, whether its devices keep that, whether it
/// has a spare info, its numbers of faults, and its slack.
pub trait Board {
    ghost use Rattle.std.specs.Prelude.{ℕ, Bool};
    ghost use Rattle.st_model.specs.declared.info.TableInfo.{TableInfo};
    ghost use Rattle.st_model.specs.Parts.{shown_table};
    ghost use Rattle.st_model.specs.declared.state.TableState.{TableState};

    /// What a report shows of the table.
    type Info: Send + Sync + Drop;

    /// The names, the stopped pools, the rack's devices and the next serial.
    ghost stands: { Self → TableState };

    /// The test: the devices of the stopped pools and those that are free keep what the table
    /// stands for.
    ghost is_kept: { Self → Type 0 };

    /// A spare info stands, which shows the present table.
    ghost has_spare: { Self → Bool };

    /// The sum of one number for each stopped pool and of `past`.
    ghost fault_count: { Self → ℕ };

    /// The number of faults of the pools that ended.
    ghost past: { Self → ℕ };

    /// How far the free devices' count of faults is above `past`.
    ghost slack: { Self → ℕ };

    /// What an info shows.
    ghost shows: { Self.Info → TableInfo };

    /// Hands the spare over, None where there is none. It takes no memory and changes nothing else.
    fn info(&mut self) -> Option<Shared<Self::Info>>
        ensures spare { IsSome result → has_spare self.old ≡ true }
        ensures none { IfNone result (has_spare self.old ≡ false) }
        ensures shown { IfSome result (λ i. shows i ≡ shown_table (stands self.old)) }
        ensures spent { has_spare self.new ≡ false }
        ensures state { stands self.new ≡ stands self.old }
        ensures kept { is_kept self.old → is_kept self.new }
        ensures faults { fault_count self.new ≡ fault_count self.old }
        ensures past { past self.new ≡ past self.old }
        ensures slack { slack self.new ≡ slack self.old };

    /// The number of faults.
    fn faults(&self) -> u64
        ensures { result ≡ fault_count self.now };
}

impl Named for PoolInfo {
    ghost named = { λ i. i.name };

    fn name(&self) -> &Name {
        &self.name
    }
}

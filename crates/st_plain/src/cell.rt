ghost use Rattle.std.specs.Prelude.{◌≡◌, true, IfOk};
ghost use Rattle.st_model.specs.Sums.{AreSmall};

use st_model::{Cell, Named, PoolInfo, PoolState, shared_info};
use st_units::{Name, NoMemory, Shared};
use std::alloc::Global;
use std::marker::Model;

/// A started pool that no device keeps. Contracts see its state, and whether it has a spare info.
#[derive(Drop)]
pub struct PlainCell {
    pool: PoolState,
    spare: Option<Shared<PoolInfo>>,
}

impl Model for PlainCell {
    ghost use Rattle.std.specs.Prelude.{◌≡◌, is_some, IfSome};
    ghost use Rattle.st_model.specs.Shown.{pool_info};
    ghost use Rattle.st_plain.specs.Views.{CellView};

    ghost Value = { CellView };

    ghost view = { λ c. record { pool = c.pool; spare = is_some c.spare } };

    ghost invariant = { λ c. IfSome c.spare (λ i. i ≡ pool_info c.pool) };
}

impl PlainCell {
    /// The pool with a spare info.
    pub fn with_spare(alloc: Global, pool: PoolState) -> Result<PlainCell, NoMemory>
        requires { AreSmall pool.devices }
        ensures { IfOk result (λ cell. cell ≡ record { pool = pool; spare = true }) }
    {
        let info = shared_info(alloc, &pool)?;
        Ok(PlainCell {
            pool,
            spare: Some(info),
        })
    }

    /// The state of the pool.
    pub fn pool(&self) -> &PoolState
        ensures { result.now ≡ self.now.pool }
    {
        &self.pool
    }
}

impl Named for PlainCell {
    ghost named = { λ c. c.pool.name };

    fn name(&self) -> &Name {
        &self.pool.name
    }
}

impl Cell for PlainCell {
    ghost use Rattle.std.specs.Prelude.{refl};

    type Info = PoolInfo;

    ghost state = { λ c. c.pool };

    ghost is_kept = { λ c. Unit {0} };

    ghost has_spare = { λ c. c.spare };

    ghost fault_count = { λ c. 0 };

    ghost shows = { λ i. i };

    ghost name_is = { λ c. refl };

    ghost info_name_is = { λ i. refl };

    fn info(&mut self) -> Option<Shared<PoolInfo>> {
        self.spare.take()
    }

    fn faults(&self) -> u64 {
        0
    }
}

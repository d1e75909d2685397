use crate::pool::Pool;
use st_model::{Cell, Named, PoolInfo};
use st_rack::Rack;
use st_units::{Name, Shared};

impl<R: Rack> Named for Pool<R> {
    ghost named = { λ p. p.pool.name };

    fn name(&self) -> &Name {
        &self.books.rec.name
    }
}

impl<R: Rack> Cell for Pool<R> {
    ghost use Rattle.std.specs.Prelude.{refl};
    ghost use Rattle.st_pool.specs.View.{IsKeptOn};

    type Info = PoolInfo;

    ghost state = { λ p. p.pool };

    ghost is_kept = { λ p. IsKeptOn R.devs R.moment R.state_at p };

    ghost has_spare = { λ p. p.spare };

    ghost fault_count = { λ p. p.faults };

    ghost shows = { λ i. i };

    ghost name_is = { λ p. refl };

    ghost info_name_is = { λ i. refl };

    fn info(&mut self) -> Option<Shared<PoolInfo>> {
        Pool::info(self)
    }

    fn faults(&self) -> u64 {
        self.faults
    }
}

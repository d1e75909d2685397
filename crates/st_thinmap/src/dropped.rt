//! The cells that go with a filesystem.
ghost use Rattle.std.specs.Prelude.{◌≡◌, ℕ, ◌+◌, ◌<◌, ◌≤◌, ◌++◌, ◌∷◌, nat_eq, [], length, map, filter, count_by, vec_len};
ghost use Rattle.std.specs.Vec.{vec_capacity};
ghost use Rattle.st_thinmap.specs.declared.mapping.Mapping.{Mapping};
ghost use Rattle.st_thinmap.specs.inner.Tied.{lies_at};
ghost use Rattle.st_thinmap.specs.inner.Uses.{IsTable, count_in};

use crate::mapping::Mapping;
use crate::uses::{Use, count_of, lower};

/// One use less of each mapping's place. It takes no memory.
pub fn lower_run(uses: &mut Vec<Use>, run: &[Mapping])
    requires table { IsTable uses.old.items }
    requires present { (q : ℕ) → count_by (lies_at q) run.now ≤ count_in uses.old.items q }
    ensures table { IsTable uses.new.items }
    ensures counts { (q : ℕ) → count_in uses.new.items q + count_by (lies_at q) run.now ≡ count_in uses.old.items q }
    ensures len { vec_len uses.new ≤ vec_len uses.old }
    ensures capacity { vec_capacity uses.old ≤ vec_capacity uses.new }
{
    for row in run {
        lower(uses, row.place);
    }
}

/// The cells of the mappings whose places are in no use. It takes no memory.
pub fn push_unused(gone: &mut Vec<u64>, uses: &[Use], run: &[Mapping])
    requires table { IsTable uses.now }
    requires empty { gone.old.items ≡ [] }
    requires room { length run.now ≤ vec_capacity gone.old }
    ensures { gone.new.items ≡ map (λ (m : Mapping). m.cell) (filter (λ (m : Mapping). nat_eq (count_in uses.now m.place) 0) run.now) }
{
    for row in run {
        if count_of(uses, row.place) == 0 {
            push_cell(gone, row.cell);
        }
    }
}

/// Puts a cell last, for which there is room.
fn push_cell(gone: &mut Vec<u64>, cell: u64)
    requires room { vec_len gone.old < vec_capacity gone.old }
    ensures items { gone.new.items ≡ gone.old.items ++ cell ∷ [] }
    ensures len { vec_len gone.new ≡ vec_len gone.old + 1 }
    ensures capacity { vec_capacity gone.old ≤ vec_capacity gone.new }
{
    match gone.push(cell) {
        Ok(()) => {}
        Err(_) => unreachable!(),
    }
}

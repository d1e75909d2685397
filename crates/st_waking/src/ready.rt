ghost use Rattle.std.specs.Prelude.{◌≡◌, IfOk, IfSome, IfNone, Some, slice_get};
ghost use Rattle.std.specs.List.{position};
ghost use Rattle.st_model.specs.Look.{is_name_of};
ghost use Rattle.st_table.specs.Table.{named};
ghost use Rattle.st_meant.specs.Tables.{MayStart};
ghost use Rattle.st_pool.specs.Halts.{HaltedView};
ghost use Rattle.st_waking.specs.Readies.{IsReady};

use crate::sizes::all_fit;
use st_meant::{Tables, tables_of};
use st_pool::Halted;
use st_rack::Rack;
use st_table::Table;
use st_units::{Name, NoMemory, PoolSerial};
use std::alloc::Global;

/// What a start takes before its first device call, but for the pool's own.
pub(crate) struct Ready {
    pub tables: Tables,
    /// Where the pool stands among those that aren't started.
    pub place: usize,
}

fn is_named(table: &Table, serial: PoolSerial, name: &Name) -> bool
    ensures { result ≡ is_name_of name.now (named serial table.now.pools) }
{
    match table.named(serial) {
        Some(own) => own.bytes() == name.bytes(),
        None => false,
    }
}

fn place_in<R: Rack>(table: &Table, halted: &[Halted<R>], name: &Name) -> Option<usize>
    ensures { result ≡ position (λ (h : HaltedView R). is_name_of name.now (named h.serial table.now.pools)) halted.now }
{
    halted
        .iter()
        .position(|pool| is_named(table, pool.serial(), name))
}

/// Where the pool of this name stands among those that aren't started.
fn place_of<R: Rack>(table: &Table, halted: &[Halted<R>], name: &Name) -> Option<usize>
    ensures some { IfSome result (λ i. (h : HaltedView R) × (slice_get halted.now i ≡ Some h) × (named h.serial table.now.pools ≡ Some name.now)) }
    ensures none { IfNone result ((i : _) (h : HaltedView R) → slice_get halted.now i ≡ Some h → named h.serial table.now.pools ≡ Some name.now → ⊥) }
{
    place_in(table, halted, name)
}

/// Makes the start of the pool of this name ready, which is one of those that aren't started. Sizes that aren't as the engine knows them
/// can't be told from want of memory.
pub(crate) fn make_ready<R: Rack>(
    alloc: Global,
    table: &Table,
    halted: &[Halted<R>],
    name: &Name,
) -> Result<Ready, NoMemory>
    requires may { MayStart table.now name.now }
    requires there { (i : _) × (h : HaltedView R) × (slice_get halted.now i ≡ Some h) × (named h.serial table.now.pools ≡ Some name.now) }
    ensures { IfOk result (IsReady R.devs table.now halted.now name.now) }
{
    let Some(place) = place_of(table, halted, name) else {
        unreachable!();
    };
    if !all_fit(table, halted[place].rack()) {
        return Err(NoMemory);
    }
    let tables = tables_of(alloc, table, name)?;
    Ok(Ready { tables, place })
}

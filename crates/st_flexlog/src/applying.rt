ghost use Rattle.std.specs.Prelude.{◌≡◌, [], IfOk};
ghost use Rattle.st_flexlog.specs.Delta.{rows_of};
ghost use Rattle.st_flexlog.specs.Applied.{applied, applied_bytes};
ghost use Rattle.st_flexlog.specs.Said.{IsSaid};

use crate::delta::{Delta, DeltaRow, decode};
use crate::mappings::{are_mappings, put_rows};
use crate::rows::may_come;
use crate::state::{FlexState, state_of};
use st_flexrec::RecFault;
use st_units::NoMemory;
use std::alloc::Global;

/// The state that the body of a checkpoint of this generation says. `None` exactly where it says none.
#[tactic(auto, using(crate::proofs::Saying::says_begun, crate::proofs::Saying::says_none))]
pub fn begin(alloc: Global, body: &[u8], generation: u64) -> Result<Option<FlexState>, NoMemory>
    ensures { IfOk result (IsSaid generation body.now []) }
{
    match st_flexrec::decode(alloc, body, generation) {
        Err(RecFault::NotARecord) => Ok(None),
        Err(RecFault::OutOfMemory) => Err(NoMemory),
        Ok(rec) => Ok(Some(state_of(alloc, rec)?)),
    }
}

/// What the body of a delta of this generation makes of the state of the generation before. `None`
/// exactly where it is no delta, or doesn't apply.
pub fn follow(state: FlexState, generation: u64, body: &[u8]) -> Result<Option<FlexState>, NoMemory>
    ensures { IfOk result (λ after. after ≡ applied_bytes generation body.now state) }
{
    match decode(body) {
        None => Ok(None),
        Some(delta) => apply(state, generation, &delta),
    }
}

/// What the delta, of this generation, makes of the state of the generation before. `None` exactly
/// where it doesn't apply.
pub fn apply(
    state: FlexState,
    generation: u64,
    delta: &Delta,
) -> Result<Option<FlexState>, NoMemory>
    ensures { IfOk result (λ after. after ≡ applied generation delta.now state) }
{
    match (delta.first, delta.second) {
        (None, None) => apply_rows(state, generation, delta, &[]),
        (Some(first), None) => apply_rows(state, generation, delta, &[first]),
        (None, Some(second)) => apply_rows(state, generation, delta, &[second]),
        (Some(first), Some(second)) => apply_rows(state, generation, delta, &[first, second]),
    }
}

fn apply_rows(
    state: FlexState,
    generation: u64,
    delta: &Delta,
    rows: &[DeltaRow],
) -> Result<Option<FlexState>, NoMemory>
    requires { rows.now ≡ rows_of delta.now }
    ensures { IfOk result (λ after. after ≡ applied generation delta.now state) }
{
    if !may_come(generation, delta, rows, &state) {
        return Ok(None);
    }
    let FlexState {
        version2,
        serial,
        next_fs,
        next_cell: _,
        filesystems,
        mut mappings,
    } = state;
    put_rows(&mut mappings, rows)?;
    if !are_mappings(rows, mappings.items()) {
        return Ok(None);
    }
    Ok(Some(FlexState {
        version2,
        serial,
        next_fs,
        next_cell: delta.next_cell,
        filesystems,
        mappings,
    }))
}

ghost use Rattle.std.specs.Prelude.{◌≡◌, ◌+◌, ◌/◌, ◌%◌, ◌<◌, ◌^◌, IfOk, length};
ghost use Rattle.st_fields.specs.Slot.{sector_of};
ghost use Rattle.st_flexat.specs.inner.Replaying.{after_sector, ReplayedTo};

use st_deltalog::Begun;
use st_flexlog::{FlexState, begin, follow};
use st_limits::SECTOR_BYTES;
use st_slots::{HEAD, sealed_head};
use st_units::NoMemory;
use std::alloc::Global;

/// The bytes of a sector, as an index.
pub const SECTOR: usize = SECTOR_BYTES as usize;

/// What the deltas that fill these sectors make of the state that a checkpoint says, the first being of the generation after it.
/// `None` exactly where the checkpoint is no flex record, or one of the sectors is no delta of its generation that applies.
pub fn replay(
    alloc: Global,
    begun: &Begun,
    magic: &[u8; 8],
    sectors: &[u8],
) -> Result<Option<FlexState>, NoMemory>
    requires whole { length sectors.now % 512 ≡ 0 }
    requires last { begun.now.generation + length sectors.now / 512 < 2 ^ 64 }
    ensures { IfOk result (ReplayedTo magic.now begun.now.generation begun.now.body sectors.now (length sectors.now / 512)) }
{
    let mut state = begin(alloc, begun.body.items(), begun.generation)?;
    for k in 0..sectors.len() / SECTOR {
        let mut sector = [0; SECTOR];
        sector.copy_from_slice(&sectors[SECTOR * k..SECTOR * k + SECTOR]);
        state = after_sector(state, begun.generation + k as u64 + 1, magic, &sector)?;
    }
    Ok(state)
}

/// What a sector makes of the state of the generation before, if there is one and the sector is a delta of this generation that applies.
fn after_sector(
    state: Option<FlexState>,
    generation: u64,
    magic: &[u8; 8],
    sector: &[u8; 512],
) -> Result<Option<FlexState>, NoMemory>
    ensures { IfOk result (λ after. after ≡ after_sector generation (sector_of magic.now sector.now) state) }
{
    let Some(state) = state else {
        return Ok(None);
    };
    let Some(head) = sealed_head(sector, magic) else {
        return Ok(None);
    };
    if head.generation != generation {
        return Ok(None);
    }
    follow(state, generation, &sector[HEAD..HEAD + head.count])
}

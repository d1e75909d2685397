ghost use Rattle.std.specs.Prelude.{◌≡◌, IfOk, OnErr};
ghost use Rattle.st_model.specs.Answer.{first_answer};
ghost use Rattle.st_model.specs.Valid.{IsValid};
ghost use Rattle.st_model.specs.steps.DestroyPool.{destroy_answers, destroy_pool};

use st_model::{EngineState, Given, Identity, PoolState, Reply};
use st_settings::worn;
use st_units::{Cause, Name, NoMemory};
use st_within::{not_up, place_of};

/// The answer that changes nothing, where there is one.
fn destroy_answer(pool: &PoolState) -> Result<Option<Reply>, NoMemory>
    ensures { IfOk result (λ reply. reply ≡ first_answer (destroy_answers pool.now)) }
{
    if let Some(reply) = not_up(pool)? {
        return Ok(Some(reply));
    }
    if pool.filesystems.len() != 0 {
        return Ok(Some(Reply::refused(Cause::NotEmpty(pool.filesystems.len() as u64))));
    }
    Ok(worn(pool))
}

/// Ends the pool, or answers why not.
pub fn destroy_pool(state: &mut EngineState, name: &Name) -> Result<Reply, NoMemory>
    requires { IsValid state.old }
    ensures ok { IfOk result (λ reply. (reply, state.new) ≡ destroy_pool name.now state.old) }
    ensures err { OnErr result (state.new ≡ state.old) }
{
    let Some(place) = place_of(state.pools.items(), name) else {
        return Ok(Reply::accepted(Given::Changed(false, None)));
    };
    if let Some(reply) = destroy_answer(state.pools.at(place))? {
        return Ok(reply);
    }
    let pool = state.pools.remove(place);
    let identity = Identity::Pool(pool.serial);
    Ok(Reply::accepted(Given::Changed(true, Some(identity))))
}

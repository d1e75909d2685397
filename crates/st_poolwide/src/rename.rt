ghost use Rattle.std.specs.Prelude.{◌≡◌, IfOk, OnErr};
ghost use Rattle.st_model.specs.Answer.{first_answer};
ghost use Rattle.st_model.specs.Valid.{IsValid};
ghost use Rattle.st_model.specs.steps.RenamePool.{rename_answers, rename_pool};

use st_model::{EngineState, Given, Identity, PoolState, Reply, look};
use st_settings::worn;
use st_units::{Cause, Name, NoMemory};
use st_within::{not_up, place_of};

/// The answer that changes nothing, where there is one.
fn rename_answer(
    state: &EngineState,
    pool: &PoolState,
    name: &Name,
    new: &Name,
) -> Result<Option<Reply>, NoMemory>
    ensures { IfOk result (λ reply. reply ≡ first_answer (rename_answers state.now name.now new.now pool.now)) }
{
    if name.bytes() == new.bytes() {
        return Ok(Some(Reply::accepted(Given::Changed(false, None))));
    }
    if look::holder(state.pools.items(), new).is_some() {
        return Ok(Some(Reply::refused(Cause::NameInUse)));
    }
    if let Some(reply) = not_up(pool)? {
        return Ok(Some(reply));
    }
    Ok(worn(pool))
}

/// Gives the pool another name, or answers why not.
pub fn rename_pool(state: &mut EngineState, name: &Name, new: &Name) -> Result<Reply, NoMemory>
    requires { IsValid state.old }
    ensures ok { IfOk result (λ reply. (reply, state.new) ≡ rename_pool name.now new.now state.old) }
    ensures err { OnErr result (state.new ≡ state.old) }
{
    let Some(place) = place_of(state.pools.items(), name) else {
        return Ok(Reply::refused(Cause::NoSuchPool));
    };
    let pool = state.pools.at(place);
    if let Some(reply) = rename_answer(state, pool, name, new)? {
        return Ok(reply);
    }
    let identity = Identity::Pool(pool.serial);
    let copy = new.copy()?;
    let pool = state.pools.at_mut(place);
    pool.name = copy;
    pool.commits += 1;
    Ok(Reply::accepted(Given::Changed(true, Some(identity))))
}

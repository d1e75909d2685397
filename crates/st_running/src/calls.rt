ghost use Rattle.std.specs.Prelude.{◌≡◌};
ghost use Rattle.st_running.specs.Calls as calls;

use st_model::Call;

/// Whether the engine runs the call.
pub fn runs(call: &Call) -> bool
    ensures { result ≡ calls.runs call.now }
{
    matches!(
        call,
        Call::CreatePool { .. }
            | Call::DestroyPool { .. }
            | Call::StopPool { .. }
            | Call::StartPool { .. }
            | Call::RenamePool { .. }
            | Call::EngineStateReport
    )
}

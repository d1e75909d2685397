ghost use Rattle.std.specs.Prelude.{◌≡◌};
ghost use Rattle.st_calls.specs.Names.{call_word};

use st_model::Call;

/// The name of a call.
pub fn call_word(call: &Call) -> &'static str
    ensures { result.now ≡ call_word call.now }
{
    match call {
        Call::CreatePool { .. } => "CreatePool",
        Call::DestroyPool { .. } => "DestroyPool",
        Call::StopPool { .. } => "StopPool",
        Call::StartPool { .. } => "StartPool",
        Call::RenamePool { .. } => "RenamePool",
        Call::AddDataDevs { .. } => "AddDataDevs",
        Call::InitCache { .. } => "InitCache",
        Call::AddCacheDevs { .. } => "AddCacheDevs",
        Call::CreateFilesystems { .. } => "CreateFilesystems",
        Call::DestroyFilesystems { .. } => "DestroyFilesystems",
        Call::SnapshotFilesystem { .. } => "SnapshotFilesystem",
        Call::RenameFilesystem { .. } => "RenameFilesystem",
        Call::SetSizeLimit { .. } => "SetSizeLimit",
        Call::SetFsLimit { .. } => "SetFsLimit",
        Call::SetOverprovisioning { .. } => "SetOverprovisioning",
        Call::SetMerge { .. } => "SetMerge",
        Call::FsWrite { .. } => "FsWrite",
        Call::FsRead { .. } => "FsRead",
        Call::Check { .. } => "Check",
        Call::PoolReport { .. } => "PoolReport",
        Call::PoolReports { .. } => "PoolReports",
        Call::EngineStateReport => "EngineStateReport",
        Call::PowerCycle => "PowerCycle",
    }
}

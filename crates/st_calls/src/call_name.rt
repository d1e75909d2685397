ghost use Rattle.std.specs.Prelude.{◌≡◌, find, bytes_eq, option_copied};
ghost use Rattle.st_calls.specs.Names.{call_text, all_names};

/// The name of a call that a line may ask for.
#[derive(Clone, Copy, Debug, PartialEq, Eq)]
pub enum CallName {
    CreatePool,
    DestroyPool,
    StopPool,
    StartPool,
    RenamePool,
    AddDataDevs,
    InitCache,
    AddCacheDevs,
    CreateFilesystems,
    DestroyFilesystems,
    SnapshotFilesystem,
    RenameFilesystem,
    SetSizeLimit,
    SetFsLimit,
    SetOverprovisioning,
    SetMerge,
    FsWrite,
    FsRead,
    Check,
    PoolReport,
    PoolReports,
    EngineStateReport,
}

impl CallName {
    /// The name as a line writes it.
    pub fn text(&self) -> &'static str
        ensures { result.now ≡ call_text self.now }
    {
        match self {
            CallName::CreatePool => "CreatePool",
            CallName::DestroyPool => "DestroyPool",
            CallName::StopPool => "StopPool",
            CallName::StartPool => "StartPool",
            CallName::RenamePool => "RenamePool",
            CallName::AddDataDevs => "AddDataDevs",
            CallName::InitCache => "InitCache",
            CallName::AddCacheDevs => "AddCacheDevs",
            CallName::CreateFilesystems => "CreateFilesystems",
            CallName::DestroyFilesystems => "DestroyFilesystems",
            CallName::SnapshotFilesystem => "SnapshotFilesystem",
            CallName::RenameFilesystem => "RenameFilesystem",
            CallName::SetSizeLimit => "SetSizeLimit",
            CallName::SetFsLimit => "SetFsLimit",
            CallName::SetOverprovisioning => "SetOverprovisioning",
            CallName::SetMerge => "SetMerge",
            CallName::FsWrite => "FsWrite",
            CallName::FsRead => "FsRead",
            CallName::Check => "Check",
            CallName::PoolReport => "PoolReport",
            CallName::PoolReports => "PoolReports",
            CallName::EngineStateReport => "EngineStateReport",
        }
    }

    /// The call that is written so, None exactly where none is.
    pub fn of(text: &str) -> Option<CallName>
        ensures { result ≡ find (λ name. bytes_eq (call_text name) text.now) all_names }
    {
        let names = [
            CallName::CreatePool,
            CallName::DestroyPool,
            CallName::StopPool,
            CallName::StartPool,
            CallName::RenamePool,
            CallName::AddDataDevs,
            CallName::InitCache,
            CallName::AddCacheDevs,
            CallName::CreateFilesystems,
            CallName::DestroyFilesystems,
            CallName::SnapshotFilesystem,
            CallName::RenameFilesystem,
            CallName::SetSizeLimit,
            CallName::SetFsLimit,
            CallName::SetOverprovisioning,
            CallName::SetMerge,
            CallName::FsWrite,
            CallName::FsRead,
            CallName::Check,
            CallName::PoolReport,
            CallName::PoolReports,
            CallName::EngineStateReport,
        ];
        named(&names, text).copied()
    }
}

fn is_written(name: &CallName, text: &str) -> bool
    ensures { result ≡ bytes_eq (call_text name.now) text.now }
{
    name.text() == text
}

fn named<'a>(names: &'a [CallName], text: &str) -> Option<&'a CallName>
    ensures { option_copied result ≡ find (λ name. bytes_eq (call_text name) text.now) names.now }
{
    names.iter().find(|name| is_written(name, text))
}

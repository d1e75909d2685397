ghost use Rattle.st_history.specs.Agreement.{GrantedIsLive, LogsAgreeOnHeld};
ghost use Rattle.st_history.specs.Over.{EntriesGoOver};
ghost use Rattle.st_history.specs.Own.{OwnTells};

/// What a held ticket wants doesn't change while it is held.
pub fn logs_agree_on_held()
    ensures { LogsAgreeOnHeld }
{}

/// A ticket that a history grants and doesn't release is live after it.
pub fn granted_is_live()
    ensures { GrantedIsLive }
{}

/// What a seat's own events tell of its tickets is so.
pub fn own_events_tell()
    ensures { OwnTells }
{}

/// Entries that are due after one state are due after each that agrees with it on the want.
pub fn entries_go_over()
    ensures { EntriesGoOver }
{}

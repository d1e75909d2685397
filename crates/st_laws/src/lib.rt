//! Laws of the step that a user would ask, on functions with empty bodies.
#![tactic(auto)]

ghost use Rattle.st_laws.specs.Reads.{DestroyingKeepsOthers, FalseChangesNothing, MergesAreRead, ReadsTell, SettingsKeepContent, SnapshotsKeepOthers, SnapshotsRead, UsedIsAllocated, WritesAreRead, WritesKeepOthers};

/// A write is read back.
pub fn writes_are_read()
    ensures { WritesAreRead }
{}

/// A write changes no other sector, of any filesystem.
pub fn writes_keep_others()
    ensures { WritesKeepOthers }
{}

/// A read gives the bytes of its sectors.
pub fn reads_tell()
    ensures { ReadsTell }
{}

/// Reads, checks and settings change nothing that is read.
pub fn settings_keep_content()
    ensures { SettingsKeepContent }
{}

/// A snapshot reads as its origin did.
pub fn snapshots_read()
    ensures { SnapshotsRead }
{}

/// A snapshot changes nothing that any other filesystem reads.
pub fn snapshots_keep_others()
    ensures { SnapshotsKeepOthers }
{}

/// Filesystems that aren't destroyed read as before, snapshots of those that are too.
pub fn destroying_keeps_others()
    ensures { DestroyingKeepsOthers }
{}

/// Once a snapshot is marked, and its pool stopped and started, the origin reads as the snapshot did.
pub fn merges_are_read()
    ensures { MergesAreRead }
{}

/// A call that answers false changes nothing.
pub fn false_changes_nothing()
    ensures { FalseChangesNothing }
{}

/// No pool ever uses more than is allocated to it.
pub fn used_is_allocated()
    ensures { UsedIsAllocated }
{}

//! A law of what a start does to a pool that an engine knows alone. It does nothing when it runs.
#![tactic(auto)]

ghost use Rattle.st_onestart.specs.Alone.{StartsAlone};

/// What the model answers of a start, and makes of the pool: for a pool without a call in flight, and for each thing that a start may find of
/// a call that makes, renames or ends the pool; and where a device fails.
pub fn starts_alone()
    ensures { StartsAlone }
{}

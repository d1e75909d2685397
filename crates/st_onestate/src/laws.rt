//! A law of what devices stand for. It does nothing when it runs.

ghost use Rattle.st_onestate.specs.Once.{StandsAsOne};

/// The devices of a rack stand for one state at most.
pub fn stands_as_one()
    ensures { StandsAsOne }
{}

//! Laws of blank devices. They do nothing when they run.

ghost use Rattle.st_blank.specs.Blank.{BlankStands, BlankStandsOnce, BlankNotForeign};

/// Blank devices stand for the state with no pool.
pub fn blank_stands()
    ensures { BlankStands }
{}

/// They stand for no other.
pub fn blank_stands_once()
    ensures { BlankStandsOnce }
{}

/// No serial breaks a rule on them.
pub fn blank_not_foreign()
    ensures { BlankNotForeign }
{}

//! Laws of what a rack is divided into. They do nothing when they run.

ghost use Rattle.st_boarding.specs.Boarding.{DividedKeeps, DividedLacks, FoundLieApart};

use st_rack::Rack;

/// The rows of the pools that were found name no device twice.
pub fn found_lie_apart()
    ensures { FoundLieApart }
{}

/// The racks that it is divided into keep the table of the state that was found on it.
pub fn divided_keeps<R: Rack>(old: &R, rest: &R)
    ensures keeps { DividedKeeps R.devs R.moment R.state_at R.faults R.spare old.now rest.now }
    ensures lacks { DividedLacks R.devs R.moment R.state_at R.faults R.spare old.now rest.now }
{
    let _ = old;
    let _ = rest;
}

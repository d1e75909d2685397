//! A law of what the devices of a rack stand for: it is a valid state. It does nothing when it runs.
#![tactic(auto)]

ghost use Rattle.st_sound.specs.Valid.{FoundIsValid};

use st_flexsound::a_log_is_sound;

/// A state that devices stand for is valid, where they stand in order of their paths and a run can bear them.
pub fn found_is_valid()
    ensures { FoundIsValid }
{
    a_log_is_sound();
}

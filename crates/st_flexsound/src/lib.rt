//! A law of what a log says: it is sound, so that a pool may have it. It does nothing when it runs.
#![tactic(auto)]

ghost use Rattle.st_flexsound.specs.Sound.{SaysSound};

/// What a log says at a generation, a pool may have.
pub fn a_log_is_sound()
    ensures { SaysSound }
{}

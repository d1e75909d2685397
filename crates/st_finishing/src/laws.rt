//! Laws of a rack that is being finished. They do nothing when they run.

ghost use Rattle.st_finishing.specs.Laws.{FinishingStands, FinishedIsAll};

/// Whatever is left of such a write stands for the state that the devices stood for.
pub fn finishing_stands()
    ensures { FinishingStands }
{}

/// Once all is written, nothing is left to be finished.
pub fn finished_is_all()
    ensures { FinishedIsAll }
{}

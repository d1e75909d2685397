ghost use Rattle.st_lock.specs.Staying.{PartStays};

/// What a held ticket wants stays as it is, and its part stands for the log as far as its seat has then seen it: so a
/// caller may look, join and try to close while it holds a guard, and give it back then.
pub fn part_stays()
    ensures { PartStays }
{}

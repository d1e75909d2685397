ghost use Rattle.st_book.specs.Callers.{PartFits};

/// What comes back by a release and what is at home are no more cells than there are started
/// pools: so where the state after the release is valid, they are at most 16.
pub fn part_fits()
    ensures { PartFits }
{}

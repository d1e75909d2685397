ghost use Rattle.st_step.specs.Laws.{IsItsOwn, MergesKeep, NoneIsMarked, RefusalsKeep};

/// The merge of a pool that is whole is whole.
pub fn merges_keep_pools_whole()
    ensures { MergesKeep }
{}

/// No filesystem of a merge is marked.
pub fn merges_have_no_mark()
    ensures { NoneIsMarked }
{}

/// A merge is its own merge.
pub fn merges_are_their_own()
    ensures { IsItsOwn }
{}

/// A call that is refused changes nothing, but for a write that failed and a pool that vanished.
pub fn refusals_change_nothing()
    ensures { RefusalsKeep }
{}

//! Laws of what a call that makes a pool, or takes one whole pool, does beside other pools. They do nothing when they run.
#![tactic(auto)]

ghost use Rattle.st_beside.specs.Beside.{CreateBeside, DestroyBeside, RenameBeside, StopBeside};

use st_table::keeps_as_the_model;

/// What a call does to one pool alone, it does to it beside others, which stay as they are.
pub fn beside_others()
    ensures destroyed { DestroyBeside }
    ensures stopped { StopBeside }
    ensures renamed { RenameBeside }
{
    keeps_as_the_model();
}

/// What an engine that knows no pool makes of a CreatePool that nothing is against, any other makes of it beside its pools.
pub fn made_beside_others()
    ensures { CreateBeside }
{}

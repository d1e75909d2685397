//! Laws of what StopPool and DestroyPool answer on a whole engine, and of what its table tells of the pool of a name. They do nothing
//! when they run.
#![tactic(auto)]

ghost use Rattle.st_outcomes.specs.Ending.{DestroyOutcomes, EndsUnseen};
ghost use Rattle.st_outcomes.specs.Stopping.{HaltsTold, StopOutcomes, StopsAs};
ghost use Rattle.st_outcomes.specs.Told.{TellsStarted, TellsUnstarted};

use st_beside::beside_others;
use st_table::{changes_as_the_model, keeps_as_the_model, tells_of_each_pool};

/// What a table tells of the pool of a name.
pub fn the_table_tells()
    ensures unstarted { TellsUnstarted }
    ensures started { TellsStarted }
{
    tells_of_each_pool();
}

/// What a stop answers, and the table after it.
pub fn stops()
    ensures outcomes { StopOutcomes }
    ensures stays { StopsAs }
    ensures told { HaltsTold }
{
    keeps_as_the_model();
    changes_as_the_model();
    tells_of_each_pool();
}

/// What an end answers, and where the table tells nothing new.
pub fn ends()
    ensures outcomes { DestroyOutcomes }
    ensures unseen { EndsUnseen }
{
    beside_others();
    keeps_as_the_model();
}

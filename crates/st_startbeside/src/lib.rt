//! A law of what a start does to a pool beside other pools. It does nothing when it runs.
#![tactic(auto)]

ghost use Rattle.st_startbeside.specs.Starts.{StartBeside};

use st_beside::beside_others;
use st_table::keeps_as_the_model;

/// What a start does to one pool alone, it does to it beside others, which stay as they are: whatever it meets, and whatever it finds of a
/// call that makes, renames or ends the pool.
pub fn starts_beside_others()
    ensures { StartBeside }
{
    keeps_as_the_model();
    beside_others();
}

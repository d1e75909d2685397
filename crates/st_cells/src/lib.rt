//! Laws of the started pools of a state, which are kept in any order, and of its table, through a change of one pool. They do nothing
//! when they run.
#![tactic(auto)]

ghost use Rattle.st_cells.specs.Cells.{Added, Dropped, EachOwn, Halted, NoMore, NoneOut, Started, TakenOut};
ghost use Rattle.st_cells.specs.Tables.{TableDrop, TablePut, TableWith};

/// What the started pools are after a change of one pool.
pub fn the_started_pools()
    ensures taken { TakenOut }
    ensures none { NoneOut }
    ensures added { Added }
    ensures started { Started }
    ensures halted { Halted }
    ensures dropped { Dropped }
    ensures no_more { NoMore }
    ensures each { EachOwn }
{}

/// What the table stands for after a change of one pool.
pub fn the_table()
    ensures added { TableWith }
    ensures put { TablePut }
    ensures dropped { TableDrop }
{}

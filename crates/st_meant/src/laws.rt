ghost use Rattle.st_meant.specs.Started.{StartMakes};
ghost use Rattle.st_meant.specs.Tables.{CanMay, TablesTell};

use st_table::{changes_as_the_model, keeps_as_the_model, tells_as_the_model, tells_of_each_pool};

/// What a start makes of a pool: whatever it finds of a call in flight, the pool has one of the names that it held, and its devices.
pub fn start_makes()
    ensures { StartMakes }
{}

/// A pool that can be started may be started in the table, and the tables that are made for it tell of the states after it.
pub fn tables_of_a_start()
    ensures may { CanMay }
    ensures tell { TablesTell }
{
    tells_as_the_model();
    tells_of_each_pool();
    changes_as_the_model();
    keeps_as_the_model();
}

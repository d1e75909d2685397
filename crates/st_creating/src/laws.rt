ghost use Rattle.st_creating.specs.Told.{ToldAlike};

use st_table::{tells_as_the_model, tells_of_each_pool};

/// What the table tells and the info of the pool of the name give the model's answer.
pub fn answers_as_the_model()
    ensures { ToldAlike }
{
    tells_as_the_model();
    tells_of_each_pool();
}

ghost use Rattle.st_table.specs.Stands.{Alike};
ghost use Rattle.st_table.specs.Steps.{AddedAlike, DroppedAlike, InfosTold, KeptAlike, PlacedAlike, PoolsTold, PutAlike, SameAlike, SerialsTold, StepsPut, UsersTold};

/// A table that stands for the model's table tells as that does which names are held, which serials
/// are given, which devices are free and how many pools there are.
pub fn tells_as_the_model()
    ensures { Alike }
{}

/// Of a valid state such a table keeps under each name what the model has, names the pool of a serial
/// and the pool that uses a device, and its info is what the model's report shows.
pub fn tells_of_each_pool()
    ensures pools { PoolsTold }
    ensures serials { SerialsTold }
    ensures users { UsersTold }
    ensures infos { InfosTold }
{}

/// After a change such a table stands for the state that the model's step leaves.
pub fn changes_as_the_model()
    ensures added { AddedAlike }
    ensures dropped { DroppedAlike }
    ensures put { PutAlike }
    ensures same { SameAlike }
    ensures placed { PlacedAlike }
{}

/// What a change puts in, and what a step of the model leaves of a pool, are alike.
pub fn keeps_as_the_model()
    ensures kept { KeptAlike }
    ensures steps { StepsPut }
{}

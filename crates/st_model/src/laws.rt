ghost use Rattle.st_model.specs.Laws.{KeepsValidity, Locality, ReadsKeep, StepLocality};

/// A step keeps validity, whatever the call met.
pub fn step_keeps_validity()
    ensures { KeepsValidity }
{}

/// A call that reads changes no state.
pub fn reads_change_nothing()
    ensures { ReadsKeep }
{}

/// A call whose want names pools is local to them, whatever it met.
pub fn outcome_is_local()
    ensures { Locality }
{}

/// So a step is, as histories need it.
pub fn step_is_local()
    ensures { StepLocality }
{}

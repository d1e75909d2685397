use st_units::{Member, NoMemory};

/// Why a line gave no call to run.
#[derive(Clone, Copy, Debug, Drop, PartialEq, Eq)]
pub enum LineFault {
    /// The line is no call: the first member that is missing or wrong.
    BadCall(Member),
    /// A name outside the limits.
    BadName(Member),
    OutOfMemory,
}

impl From<NoMemory> for LineFault {
    ghost use Rattle.std.specs.Prelude.{◌≡◌};
    ghost use Rattle.st_calls.specs.declared.fault.LineFault.TheVariants.{OutOfMemory};

    ghost from_gives = { λ _ e. e ≡ OutOfMemory };

    fn from(_refused: NoMemory) -> LineFault {
        LineFault::OutOfMemory
    }
}

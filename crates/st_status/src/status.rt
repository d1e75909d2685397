use st_lines::{Limit, ReadStop, WriteStop};
use st_units::PoolSerial;

/// How a run ended.
#[derive(Clone, Copy)]
pub enum Status {
    /// All output was written.
    Done,
    /// The words aren't those of the command.
    Usage,
    /// The source failed.
    ReadFault,
    /// The sink failed.
    WriteFault,
    OutOfMemory,
    /// The input is beyond that limit.
    InputLimit(Limit),
    /// A device failed before any line was run.
    OpenFault,
    /// The devices stand for no state: the least serial of a pool that breaks a rule.
    Foreign(PoolSerial),
}

impl From<ReadStop> for Status {
    ghost use Rattle.std.specs.Prelude.{◌≡◌};
    ghost use Rattle.st_status.specs.Statuses.{after_read};

    ghost from_gives = { λ stop e. e ≡ after_read stop };

    fn from(stop: ReadStop) -> Status {
        match stop {
            ReadStop::Fault => Status::ReadFault,
            ReadStop::Limit(limit) => Status::InputLimit(limit),
            ReadStop::OutOfMemory => Status::OutOfMemory,
        }
    }
}

impl From<WriteStop> for Status {
    ghost use Rattle.std.specs.Prelude.{◌≡◌};
    ghost use Rattle.st_status.specs.Statuses.{after_write};

    ghost from_gives = { λ stop e. e ≡ after_write stop };

    fn from(stop: WriteStop) -> Status {
        match stop {
            WriteStop::Fault => Status::WriteFault,
            WriteStop::OutOfMemory => Status::OutOfMemory,
        }
    }
}

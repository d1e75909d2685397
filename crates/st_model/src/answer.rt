ghost use Rattle.std.specs.Prelude.{◌≡◌};
ghost use Rattle.st_model.specs.Answer as Answer;

use crate::reply::{Given, Reply};
use st_units::Cause;

/// The code that a reply with this cause has.
pub fn code_of(cause: &Cause) -> u8
    ensures { result ≡ Answer.code_of cause.now }
{
    match cause {
        Cause::BadCall(_) => 1,
        Cause::BadName(_) => 2,
        Cause::EmptyDevices => 3,
        Cause::NoSuchDevice(_) => 4,
        Cause::NameInUse => 5,
        Cause::DeviceInUse(_, _) => 6,
        Cause::DeviceTooSmall(_) => 7,
        Cause::TooManyDevices => 8,
        Cause::TooManyPools => 9,
        Cause::Maintenance(_) => 10,
        Cause::PoolStopped => 11,
        Cause::NotEmpty(_) => 12,
        Cause::NoSuchPool => 13,
        Cause::MissingDevice(_) => 14,
        Cause::PoolVanished => 15,
        Cause::CacheExists => 16,
        Cause::NoCache => 17,
        Cause::BadSize(_) => 18,
        Cause::TooManyFilesystems => 19,
        Cause::OverProvision(_, _) => 20,
        Cause::NoSuchFilesystem => 21,
        Cause::MappingFull(_, _) => 22,
        Cause::LimitBelowSize(_) => 23,
        Cause::LimitLower => 24,
        Cause::OutOfRange => 25,
        Cause::NoSpace(_, _) => 26,
        Cause::DeviceFault => 27,
        Cause::OutOfMemory => 28,
        Cause::Worn => 29,
        Cause::NoOrigin => 31,
        Cause::MergeConflict(_) => 32,
    }
}

impl Reply {
    /// The reply that refuses for this cause.
    pub fn refused(cause: Cause) -> Reply
        ensures { result ≡ Answer.refused cause }
    {
        Reply {
            code: code_of(&cause),
            result: None,
            cause: Some(cause),
        }
    }

    /// The reply that gives this.
    pub fn accepted(given: Given) -> Reply
        ensures { result ≡ Answer.accepted given }
    {
        Reply {
            code: 0,
            result: Some(given),
            cause: None,
        }
    }
}

use std::alloc::{AllocError, AllocFailed};

/// Memory ran out: the one refusal that no rule of the engine explains.
#[derive(Clone, Copy, Debug, PartialEq, Eq)]
pub struct NoMemory;

impl From<AllocError> for NoMemory {
    fn from(_refused: AllocError) -> NoMemory {
        NoMemory
    }
}

impl<T: Drop> From<AllocFailed<T>> for NoMemory {
    fn from(_refused: AllocFailed<T>) -> NoMemory {
        NoMemory
    }
}

impl<T: Drop> From<(T, NoMemory)> for NoMemory {
    fn from(_refused: (T, NoMemory)) -> NoMemory {
        NoMemory
    }
}

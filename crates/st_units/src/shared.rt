ghost use Rattle.std.specs.Prelude.{◌≡◌, IfOk, IfErr};

use crate::memory::NoMemory;
use std::alloc::Global;
use std::marker::Model;
use std::sync::Arc;

/// A value that is lent to many owners, seen by contracts as the value itself.
#[derive(Drop)]
pub struct Shared<T> {
    inner: Arc<T>,
}

impl<T> Model for Shared<T> {
    ghost Value = { T };

    ghost view = { λ s. s.inner.value };
}

impl<T> Shared<T> {
    /// The first owner of the value. A refusal hands the value back.
    pub fn make(alloc: Global, value: T) -> Result<Self, (T, NoMemory)>
        ensures ok { IfOk result (λ s. s ≡ value) }
        ensures err { IfErr result (λ e. e.0 ≡ value) }
    {
        match Arc::new(alloc, value) {
            Ok(inner) => Ok(Shared { inner }),
            Err(failed) => Err((failed.value, NoMemory)),
        }
    }

    /// One more owner of the same value.
    pub fn copy(&self) -> Result<Self, NoMemory>
        ensures { IfOk result (λ s. s ≡ self.now) }
    {
        match Arc::try_clone(&self.inner) {
            Ok(inner) => Ok(Shared { inner }),
            Err(_) => Err(NoMemory),
        }
    }

    /// The value.
    pub fn value(&self) -> &T
        ensures { result.now ≡ self.now }
    {
        &self.inner
    }
}

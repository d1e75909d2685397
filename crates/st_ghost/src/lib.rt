//! Values that only clauses read.
#![tactic(auto)]

ghost use Rattle.std.specs.Prelude.{◌≡◌};
ghost use base.Fml.{ftrue};

use std::marker::{Model, PhantomData, Send, Sync};

/// A value that only clauses read, chosen where it is made. It has no bytes and owns nothing.
pub struct Ghost<T> {
    marker: PhantomData<T>,
    pub ghost value: { T },
}

impl<T> Model for Ghost<T> {
    ghost also_owns = { λ _. ftrue };
}

impl<T> Ghost<T> {
    /// A value of the caller's choice, which may depend on what two references show: the proof of
    /// each caller picks it.
    pub fn new<A, B>(first: &A, second: &B) -> Ghost<T>
        ghost chosen: { T }
        ensures { result.value ≡ chosen }
    {
        let _ = first;
        let _ = second;
        Ghost {
            marker: PhantomData,
        }
    }
}

unsafe impl<T> Send for Ghost<T> {}

unsafe impl<T> Sync for Ghost<T> {}

impl<T> Drop for Ghost<T> {
    fn drop(self) {
        let Self { marker: _ } = self;
    }
}

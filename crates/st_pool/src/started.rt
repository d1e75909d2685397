use crate::halted::Halted;
use crate::pool::Pool;
use st_model::Env;
use st_rack::Rack;

/// What became of a halted pool that was to be started.
pub enum Started<R: Rack> {
    /// It is up. Of a call in flight it was found before or after.
    Up(Pool<R>, Env),
    /// It is known no more: its making had not been done, or its end had. The rack has its devices, which are free.
    Vanished(R, Env),
    /// A device failed. The pool stays halted.
    Fault(Halted<R>),
    /// Memory was refused, or the devices bear what could only be there by chance. The pool stays halted.
    NoMemory(Halted<R>),
}

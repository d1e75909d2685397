/// Called while a call's grant is held, with the line's number, or with 0 for a call of the event
/// worker. It returns nothing, and changes nothing that a clause names.
pub trait Gate {
    fn pass(&self, line: u64);
}

/// The gate that does nothing.
#[derive(Clone, Copy)]
pub struct NoGate;

impl Gate for NoGate {
    fn pass(&self, _line: u64) {}
}

//! What a touch answers.

/// What a read of a cell finds.
#[derive(Clone, Copy, Debug, PartialEq, Eq)]
pub enum Touch {
    /// The cell was cached at this place.
    Hit(usize),
    /// The cell is now cached at this place, for which the other cell fell out.
    Miss(usize, Option<u64>),
}

use crate::want::Want;

/// What the lock keeps of a ticket from its arrival to its release.
#[derive(Drop)]
pub struct LockRow {
    /// The number of arrivals before its own.
    pub ticket: u64,
    /// Whose ticket it is: this seat alone grants and releases it.
    pub seat: u64,
    pub want: Want,
    /// Granted, and not yet released.
    pub live: bool,
}

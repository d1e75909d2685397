/// The calls of a device.
#[derive(Clone, Copy, Debug, PartialEq, Eq)]
pub enum Kind {
    Read,
    Write,
    Sync,
}

/// What fails where an arm fires: that call alone, or besides every later call on the device until the power is cut.
#[derive(Clone, Copy, Debug, PartialEq, Eq)]
pub enum How {
    Once,
    Stop,
}

/// What of a write that wasn't synced reaches the device: nothing, all, or the first half of its sectors, rounded up.
#[derive(Clone, Copy, Debug, PartialEq, Eq)]
pub enum Pick {
    Old,
    New,
    Half,
}

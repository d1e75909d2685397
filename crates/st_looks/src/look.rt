use st_units::{Bytes, DevPath, ItemList, PoolSerial};

/// What one device shows of pools.
#[derive(Drop)]
pub struct DevLook {
    pub path: DevPath,
    /// Its sectors of 512 bytes.
    pub sectors: u64,
    /// The pool in its header, if it has one.
    pub header: Option<PoolSerial>,
    /// What its slots for pool records hold: a generation and a body. The slots of a device that is too small for a pool aren't read.
    pub even: Option<(u64, Bytes)>,
    pub odd: Option<(u64, Bytes)>,
}

/// What the devices of a rack show, in order.
pub type Looks = ItemList<DevLook>;

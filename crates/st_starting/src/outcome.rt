use st_books::Books;

/// What a start finds on the devices of a pool.
#[derive(Drop)]
pub enum Start {
    /// They bear these books, and a next commit may be made by them.
    Ready(Books),
    /// No device has a record of the pool.
    Nothing,
    /// The newest record, of this generation, says that the pool is gone, and each device bears it.
    Gone(u64),
    /// None of these: the devices of the rack stand for no pool without filesystems on just these devices.
    Broken,
}

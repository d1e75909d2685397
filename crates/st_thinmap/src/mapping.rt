/// A mapped block of a filesystem.
#[derive(Clone, Copy)]
pub struct Mapping {
    /// The serial of the filesystem.
    pub fs: u64,
    pub block: u32,
    /// The number of the cell.
    pub cell: u64,
    /// The block of the data tier in which the cell lies.
    pub place: u32,
}

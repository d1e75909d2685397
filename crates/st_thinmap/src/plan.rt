ghost use Rattle.std.specs.Prelude.{◌≡◌, ◌<◌, ◌≤◌, length, slice_get, take, [], Some};

use std::marker::Model;

/// A fresh cell for a block.
#[derive(Clone, Copy)]
pub struct Fresh {
    pub block: u32,
    /// The number of the cell.
    pub cell: u64,
    /// The block of the data tier in which it is to lie.
    pub place: u32,
}

/// The fresh cells that a write takes, two at most, in rising order of block. It takes no memory.
#[derive(Drop)]
pub struct Plan {
    fs: u64,
    cells: [Fresh; 2],
    count: usize,
}

impl Model for Plan {
    ghost use Rattle.std.specs.Prelude.{◌≡◌, ◌≤◌, length, take};
    ghost use Rattle.st_thinmap.specs.Planned.{Planned};

    ghost Value = { Planned };

    ghost view = { λ p. record { fs = p.fs; fresh = take p.count p.cells } };

    ghost invariant = { λ p. (p.count ≤ 2) × (length p.cells ≡ 2) };
}

impl Plan {
    /// The plan with the first `count` of these cells.
    pub fn of(fs: u64, cells: [Fresh; 2], count: usize) -> Plan
        requires { count ≤ 2 }
        ensures { result ≡ record { fs = fs; fresh = take count cells } }
    {
        Plan { fs, cells, count }
    }

    /// The plan without fresh cells.
    pub fn none(fs: u64) -> Plan
        ensures { result ≡ record { fs = fs; fresh = [] } }
    {
        let blank = Fresh {
            block: 0,
            cell: 0,
            place: 0,
        };
        Plan::of(fs, [blank, blank], 0)
    }

    /// The serial of the filesystem that is written.
    pub fn fs(&self) -> u64
        ensures { result ≡ self.now.fs }
    {
        self.fs
    }

    /// How many fresh cells there are.
    pub fn len(&self) -> usize
        ensures { result ≡ length self.now.fresh }
    {
        self.count
    }

    /// The fresh cell of that place among them.
    pub fn at(&self, i: usize) -> Fresh
        requires { i < length self.now.fresh }
        ensures { slice_get self.now.fresh i ≡ Some result }
    {
        let cells = &self.cells;
        cells[i]
    }
}

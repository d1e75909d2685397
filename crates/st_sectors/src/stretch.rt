ghost use Rattle.std.specs.Prelude.{◌≡◌, ◌<◌, ◌≤◌, IfOk};
ghost use Rattle.st_model.specs.Content.{stretches};

use st_limits::BLOCK_SECTORS;
use st_units::{ItemList, NoMemory};
use std::alloc::Global;
use std::marker::Model;

/// Sectors of one block: the block, the place of the first in it, and how many.
#[derive(Drop)]
pub struct Stretch {
    block: u64,
    at: u64,
    sectors: u64,
}

impl Model for Stretch {
    ghost use Rattle.std.specs.Prelude.{◌<◌, ◌≤◌};
    ghost use Rattle.st_model.specs.Content as content;

    ghost Value = { content.Stretch };

    ghost view = { λ s. record { block = s.block; at = s.at; sectors = s.sectors } };

    ghost invariant = { λ s. (s.at < 128) × (s.sectors ≤ 128) };
}

impl Stretch {
    /// The block.
    pub fn block(&self) -> u64
        ensures { result ≡ self.now.block }
    {
        self.block
    }

    /// The place of its first sector in the block.
    pub fn at(&self) -> u64
        ensures value { result ≡ self.now.at }
        ensures within { self.now.at < 128 }
    {
        self.at
    }

    /// How many sectors.
    pub fn sectors(&self) -> u64
        ensures value { result ≡ self.now.sectors }
        ensures within { self.now.sectors ≤ 128 }
    {
        self.sectors
    }
}

/// The stretches of so many sectors from this one on, block by block.
pub fn stretches(alloc: Global, sector: u64, sectors: u64) -> Result<ItemList<Stretch>, NoMemory>
    ensures { IfOk result (λ list. list ≡ stretches sector sectors) }
{
    let at = sector % BLOCK_SECTORS;
    let here = sectors.min(BLOCK_SECTORS - at);
    let mut list = ItemList::make(alloc);
    list.push(Stretch {
        block: sector / BLOCK_SECTORS,
        at,
        sectors: here,
    })?;
    if here != sectors {
        list.push(Stretch {
            block: sector / BLOCK_SECTORS + 1,
            at: 0,
            sectors: (sectors - here).min(BLOCK_SECTORS),
        })?;
    }
    Ok(list)
}

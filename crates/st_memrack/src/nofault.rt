ghost use Rattle.std.specs.Prelude.{◌≡◌, ◌+◌, ◌-◌, ◌<◌, ◌≤◌, ℕ, IfOk, length, vec_capacity, vec_len};
ghost use Rattle.std.proofs.Props.{props};
ghost use Rattle.st_rack.specs.Calls.{Devices, Rises};
ghost use Rattle.st_rack.specs.Device.{Path, State};
ghost use Rattle.st_shelf.specs.Shelf.{look, rows_of, state_in};
ghost use Rattle.st_shelf.specs.Past.{depth, was};
ghost use Rattle.st_memrack.specs.Slab.{slab_path, slab_size, slab_state, slab_reads};
ghost use Rattle.std.specs.List.{AllZip};
ghost use Rattle.st_memrack.specs.Blank.{AreDistinct, IsBlank, Filled, IsSettled};

use crate::Slab;
use st_rack::{DevFault, Rack};
use st_shelf::{
    Past, copied, find, first_of, insert, remember, remember_joined, take_in, take_out,
};
use st_units::{DevList, DevPath, NoMemory};
use std::alloc::Global;
use std::snapshot::Snapshot;

/// A rack whose devices never fail: its count of faults is 0.
#[derive(Drop)]
pub struct NoFaultRack {
    slabs: Vec<Slab>,
    past: Snapshot<Past<Slab>>,
    ghost rises: { Rises (rows_of slab_path slab_size slabs.items) } by { Prim.hlevel props },
}

impl NoFaultRack {
    /// A rack of these devices, each given by its path and its sectors, of zeros. It takes all its memory here.
    pub fn blank(alloc: Global, devs: &[(DevPath, u64)]) -> Result<NoFaultRack, NoMemory>
        requires { AreDistinct devs.now }
        ensures { IfOk result (IsBlank ⟦<NoFaultRack as Rack>⟧.devs ⟦<NoFaultRack as Rack>⟧.moment ⟦<NoFaultRack as Rack>⟧.state_at ⟦<NoFaultRack as Rack>⟧.reads devs.now) }
    {
        let slabs = blank_slabs(alloc, devs)?;
        Ok(NoFaultRack {
            slabs,
            past: Snapshot::of(&Past::Start),
        })
    }
}

// From the last on, so that at each step the slabs are the devices from `left` on.
fn blank_slabs(alloc: Global, devs: &[(DevPath, u64)]) -> Result<Vec<Slab>, NoMemory>
    requires { AreDistinct devs.now }
    ensures { IfOk result (λ v. Filled slab_path slab_size slab_state slab_reads devs.now 0 v.items) }
{
    let mut slabs = Vec::with_capacity(alloc, devs.len())?;
    let mut left = devs.len();
    while left > 0 {
        left -= 1;
        let slab = Slab::blank(alloc, &devs[left].0, devs[left].1)?;
        insert(&mut slabs, slab);
    }
    Ok(slabs)
}

impl Rack for NoFaultRack {
    ghost devs = { λ r. rows_of slab_path slab_size r.slabs.items };

    ghost moment = { λ r. depth r.past.value };

    ghost state_at = { λ r. was slab_path slab_state r.past.value (state_in slab_path slab_state r.slabs.items) };

    ghost faults = { λ r. 0 };

    ghost reads = { λ r. look slab_path slab_reads 0 r.slabs.items };

    ghost spare = { λ r. vec_capacity r.slabs - vec_len r.slabs };

    fn devices(&self) -> usize {
        self.slabs.len()
    }

    fn path_of(&self, index: usize) -> &DevPath {
        &self.slabs[index].path
    }

    fn sectors(&self, dev: &DevPath) -> Option<u64> {
        match find(&self.slabs, dev) {
            Some(i) => Some(self.slabs[i].sectors),
            None => None,
        }
    }

    fn read(&mut self, dev: &DevPath, sector: u64, buf: &mut [u8]) -> Result<(), DevFault> {
        let i = first_of(&self.slabs, dev);
        self.slabs[i].get(sector, buf);
        Ok(())
    }

    fn write(&mut self, dev: &DevPath, sector: u64, bytes: &[u8]) -> Result<(), DevFault> {
        let i = first_of(&self.slabs, dev);
        remember(&self.slabs, &mut self.past);
        self.slabs[i].put(sector, bytes);
        Ok(())
    }

    fn sync(&mut self, dev: &DevPath) -> Result<(), DevFault> {
        let i = first_of(&self.slabs, dev);
        remember(&self.slabs, &mut self.past);
        self.slabs[i].settle();
        Ok(())
    }

    fn reserve(&mut self, devices: usize) -> Result<(), NoMemory> {
        self.slabs.reserve(devices)?;
        Ok(())
    }

    fn split_off(&mut self, alloc: Global, list: &DevList) -> Result<Self, NoMemory> {
        let mut part = Vec::with_capacity(alloc, self.slabs.len())?;
        take_out(&mut self.slabs, list, &mut part);
        Ok(NoFaultRack {
            slabs: part,
            past: copied(&self.past),
        })
    }

    fn absorb(&mut self, other: Self) {
        let NoFaultRack {
            slabs: mut others,
            past: _,
        } = other;
        remember_joined(&self.slabs, &others, &mut self.past);
        take_in(&mut self.slabs, &mut others);
    }

    fn cycle(&mut self) {
        remember(&self.slabs, &mut self.past);
        settle_all(&mut self.slabs);
    }
}

fn settle_all(slabs: &mut Vec<Slab>)
    ensures settled { AllZip IsSettled slabs.old.items slabs.new.items }
    ensures len { vec_len slabs.new ≡ vec_len slabs.old }
    ensures capacity { vec_capacity slabs.new ≡ vec_capacity slabs.old }
{
    for i in 0..slabs.len() {
        slabs[i].settle();
    }
}

ghost use Rattle.std.specs.Prelude.{◌≡◌, ◌<◌, ◌-◌, ◌^◌, true, IfOk, OnOk, OnErr};
ghost use Rattle.st_model.specs.OnTable.{with_known};
ghost use Rattle.st_model.specs.Parts.{table_of, shown_table};
ghost use Rattle.st_plain.specs.Parts.{opening};

use crate::known::shown;
use st_model::{Board, KnownPool, TableInfo, TableState};
use st_units::{DevRows, ItemList, NoMemory, Shared};
use std::alloc::Global;
use std::marker::Model;

/// The table of pools that no device keeps. Contracts see what it stands for, and whether it has
/// a spare info.
#[derive(Drop)]
pub struct PlainTable {
    state: TableState,
    spare: Option<Shared<TableInfo>>,
}

impl Model for PlainTable {
    ghost use Rattle.std.specs.Prelude.{◌≡◌, is_some, IfSome};
    ghost use Rattle.st_model.specs.Parts.{shown_table};
    ghost use Rattle.st_plain.specs.Views.{TableView};

    ghost Value = { TableView };

    ghost view = { λ t. record { state = t.state; spare = is_some t.spare } };

    ghost invariant = { λ t. IfSome t.spare (λ i. i ≡ shown_table t.state) };
}

impl PlainTable {
    /// The table of a run that begins on these devices, which stand in byte order of their paths,
    /// each once: no pool, and a spare info.
    pub fn opening(alloc: Global, devices: DevRows) -> Result<PlainTable, NoMemory>
        ensures { IfOk result (λ table. table ≡ record { state = table_of (opening devices); spare = true }) }
    {
        let state = TableState {
            names: ItemList::make(alloc),
            stopped: ItemList::make(alloc),
            devices,
            next: 1,
        };
        let info = shown(alloc, &state)?;
        Ok(PlainTable {
            state,
            spare: Some(info),
        })
    }

    /// What the table stands for.
    pub fn state(&self) -> &TableState
        ensures { result.now ≡ self.now.state }
    {
        &self.state
    }

    /// Enters a pool that took the next serial, and makes a new spare info. A refusal changes
    /// nothing.
    pub fn enter(&mut self, alloc: Global, known: KnownPool) -> Result<(), NoMemory>
        requires { self.old.state.next < 2 ^ 64 - 1 }
        ensures ok { OnOk result (self.new ≡ record { state = with_known self.old.state known; spare = true }) }
        ensures err { OnErr result (self.new ≡ self.old) }
    {
        self.spare = Some(shown_with(alloc, &mut self.state, known)?);
        Ok(())
    }
}

/// Enters a pool that took the next serial, and gives what a report shows then. A refusal changes
/// nothing.
fn shown_with(
    alloc: Global,
    state: &mut TableState,
    known: KnownPool,
) -> Result<Shared<TableInfo>, NoMemory>
    requires { state.old.next < 2 ^ 64 - 1 }
    ensures ok { OnOk result (state.new ≡ with_known state.old known) }
    ensures info { IfOk result (λ info. info ≡ shown_table (with_known state.old known)) }
    ensures err { OnErr result (state.new ≡ state.old) }
{
    let last = state.names.len();
    state.names.push(known)?;
    state.next += 1;
    match shown(alloc, state) {
        Ok(info) => Ok(info),
        Err(refused) => {
            let _known = state.names.remove(last);
            state.next -= 1;
            Err(refused)
        }
    }
}

impl Board for PlainTable {
    type Info = TableInfo;

    ghost stands = { λ t. t.state };

    ghost is_kept = { λ t. Unit {0} };

    ghost has_spare = { λ t. t.spare };

    ghost fault_count = { λ t. 0 };

    ghost past = { λ t. 0 };

    ghost slack = { λ t. 0 };

    ghost shows = { λ i. i };

    fn info(&mut self) -> Option<Shared<TableInfo>> {
        self.spare.take()
    }

    fn faults(&self) -> u64 {
        0
    }
}

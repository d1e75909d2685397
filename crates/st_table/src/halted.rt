ghost use Rattle.std.specs.Prelude.{◌≡◌, IfOk};
ghost use Rattle.st_table.specs.Table.{shown_mode};

use st_model::ShownMode;
use st_units::{DevList, DevPath, Name, NoMemory};
use std::alloc::Global;

/// Why a pool isn't started.
#[derive(Drop)]
pub enum HaltedMode {
    Stopped,
    /// A call was in flight.
    Unsettled,
    /// That device is missing.
    Incomplete(DevPath),
}

/// What the table keeps of a pool that isn't started.
#[derive(Drop)]
pub struct HaltedInfo {
    pub mode: HaltedMode,
    /// The devices in use.
    pub devs: DevList,
    /// Those of them that are only in the call in flight.
    pub flight: DevList,
    /// The new name of a rename in flight.
    pub new: Option<Name>,
}

impl HaltedMode {
    fn copy(&self) -> Result<HaltedMode, NoMemory>
        ensures { IfOk result (λ copy. copy ≡ self.now) }
    {
        match self {
            HaltedMode::Stopped => Ok(HaltedMode::Stopped),
            HaltedMode::Unsettled => Ok(HaltedMode::Unsettled),
            HaltedMode::Incomplete(path) => Ok(HaltedMode::Incomplete(path.copy()?)),
        }
    }

    /// The mode, as reports show it.
    pub(crate) fn shown(&self) -> ShownMode
        ensures { result ≡ shown_mode self.now }
    {
        match self {
            HaltedMode::Stopped => ShownMode::Stopped,
            HaltedMode::Unsettled => ShownMode::Unsettled,
            HaltedMode::Incomplete(_) => ShownMode::Incomplete,
        }
    }
}

pub(crate) fn copy_name(name: &Option<Name>) -> Result<Option<Name>, NoMemory>
    ensures { IfOk result (λ copy. copy ≡ name.now) }
{
    match name {
        Some(name) => Ok(Some(name.copy()?)),
        None => Ok(None),
    }
}

impl HaltedInfo {
    /// The same once more.
    pub fn copy(&self, alloc: Global) -> Result<HaltedInfo, NoMemory>
        ensures { IfOk result (λ copy. copy ≡ self.now) }
    {
        Ok(HaltedInfo {
            mode: self.mode.copy()?,
            devs: self.devs.copy(alloc)?,
            flight: self.flight.copy(alloc)?,
            new: copy_name(&self.new)?,
        })
    }
}

//! The engine as a state and a step: what each call answers, and what it leaves.
#![tactic(auto)]

mod answer;
mod call;
mod call_copy;
mod entry;
mod gate;
mod info;
mod laws;
pub mod look;
pub mod making;
mod meaning;
mod number_map;
mod reply;
mod shown;
mod state;
mod wanted;

pub use answer::code_of;
pub use call::{Call, Payload, PoolId};
pub use entry::{Entry, EntryList, Env, Origin};
pub use gate::{Gate, NoGate};
pub use info::{
    CacheInfo, FsInfo, FsInfoList, Infos, PoolInfo, PoolRow, ShownMode, StoppedList, StoppedRow,
    TableInfo,
};
pub use laws::{outcome_is_local, reads_change_nothing, step_is_local, step_keeps_validity};
pub use meaning::{Board, Cell, Named};
pub use number_map::NumberMap;
pub use reply::{Given, Identity, NewFs, Reply};
pub use shown::{insert_info, insert_stopped, room, shared_info};
pub use state::{CacheState, EngineState, FsState, KnownPool, PoolMode, PoolState, TableState};
pub use wanted::want_of;

use st_calls::LineFault;
use st_model::Call;

/// What became of a line.
#[derive(Drop)]
pub enum Answer {
    /// Its call ran; the release of its ticket stands at this place of the log.
    Ran(usize),
    /// It is no call.
    Fault(LineFault),
    /// It is a call that the engine doesn't run yet.
    NotBuilt(Call),
    /// Memory was refused before the call arrived.
    Refused,
}

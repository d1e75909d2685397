//! CreatePool on the engine's started pools and its board.
#![tactic(auto)]

mod answer;
mod laws;
mod plan;
mod ready;

pub use answer::create_answer;
pub use laws::answers_as_the_model;
pub use plan::Plan;
pub use ready::{Ready, make_ready};

//! A session: from the bytes that come in to the bytes that go out, over the engine on devices.
#![tactic(auto)]

mod fit;
mod input;
mod on_board;
mod on_rack;
mod outcome;
mod output;
mod told;
mod top;

pub use fit::is_fit;
pub use outcome::Outcome;
pub use top::run_words;

//! Replies as JSON, and the lines that answer a script.
#![tactic(auto)]

mod line;
mod reply;
mod result;
mod text;

pub use line::{Summary, not_built_line, reply_line, summary_line};
pub use reply::put_reply;
pub use result::put_bytes;

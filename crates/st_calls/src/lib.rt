//! A line of JSON, read as a call.
//!
//! `read_call` equals the form of lines, which stands in `specs/` call by call: the first fault in the order of
//! the form is the answer, with the member named, and nothing but want of memory comes otherwise.
#![tactic(auto)]

mod call_name;
mod fault;
mod fs_forms;
mod io_forms;
mod members;
mod number;
mod pool_forms;
mod read;
mod value;
mod word;

pub use call_name::CallName;
pub use fault::LineFault;
pub use read::{read_call, read_call_with};
pub use word::call_word;

//! Fields and rows of the records that a commit writes.
//!
//! A record's body is a head and rows, each of a fixed width. What stands in the fields of a row is
//! spelled again and compared with the row: so nothing but the one spelling of a value is read as it.
#![tactic(auto)]

mod fault;
mod fs_rows;
mod pool_rows;
mod row;
mod texts;

pub use fault::RecFault;
pub use fs_rows::FS_WIDTH;
pub use pool_rows::{DEV_WIDTH, SEGMENT_WIDTH};
pub use row::{Row, put_rows, read_row, read_rows};
pub use texts::{TEXT_ROOM, name_of, path_of, put_text, text_at};

//! JSON that is written piece by piece straight into the text of a line.
#![tactic(auto)]

mod line;
mod member;
mod put;

pub use line::{line_of, new_line};
pub use member::{bool_member, count_member, name_member, text_member};
pub use put::{
    close_list, close_object, open_list, open_object, put_bool, put_count, put_key, put_name,
    put_null, put_text,
};

//! Lines of a report, for a reader and for a shell.
#![tactic(auto)]

mod lines;

pub use lines::{
    decimal, text_or_none, write_if, write_line, write_line_if_any, write_number_line,
    write_numbered, write_setting, write_word_if_any,
};

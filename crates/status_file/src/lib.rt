//! The status file of a system: read by the machine, and the text that is written for a book.
#![tactic(auto)]

mod reading;
mod text;

pub use reading::{StatusRead, read_status, stored_status};
pub use text::status_text;

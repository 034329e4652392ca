//! D-Bus messages as bytes: what a message is, a reader that says how much of one is missing, a
//! writer, and what the grammar promises.
#![tactic(auto)]

mod fields;
pub mod laws;
mod message;
mod names;
mod read;
mod reading;
mod refusal;
mod said;
mod valid;
mod write;
mod writing;

pub use message::Message;
pub use read::{Progress, read_message};
pub use refusal::{WireRefusal, WriteRefusal};
pub use valid::is_valid;
pub use write::write_message;

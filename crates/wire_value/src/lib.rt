//! The values of D-Bus messages as bytes: their types and signatures, a reader, a writer, and what
//! the grammar promises.
#![tactic(auto)]

mod basic;
mod checking;
mod error;
pub mod laws;
pub mod parts;
mod place;
pub mod put;
mod read;
mod reading;
mod sizes;
mod types;
mod valid;
mod value;
mod write;
mod writing;

pub use error::ReadError;
pub use place::Place;
pub use read::{read_items, read_value, read_values};
pub use types::{is_signature, is_single};
pub use valid::{end_of_value, end_of_values};
pub use value::Value;
pub use write::{signature_of, write_value, write_values};

//! Texts, digests, numbers and sinks, and the answers that every crate of the updater shares.
#![tactic(auto)]

mod digest;
mod flag;
mod form;
mod items;
mod memory_sink;
mod number;
mod paths;
mod quoting;
mod sink;
mod size;
mod stops;
mod text;
mod writer_sink;

pub use digest::Digest;
pub use flag::read_flag;
pub use form::Form;
pub use items::Items;
pub use memory_sink::MemorySink;
pub use number::read_number;
pub use paths::{is_within, lies_under};
pub use quoting::quote;
pub use sink::{Failed, Sink, say, tell};
pub use size::read_size;
pub use stops::{Lack, NoMemory};
pub use text::{Text, text_if_any};
pub use writer_sink::WriterSink;

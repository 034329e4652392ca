//! Writing one image into one slot: why that is refused, what the status file notes of it before, and
//! the write itself.
#![tactic(auto)]

mod cause;
mod checks;
mod noting;
mod refusal;
mod write;

pub use cause::slot_cause;
pub use refusal::{SlotRefusal, SlotWritten};
pub use write::write_slot;

//! Marking slots: which slot is meant, the mark of its bootname, and what the status file notes of it.
#![tactic(auto)]

mod cause;
mod choice;
mod choosing;
mod marks;
mod naming;
mod noting;
mod refusal;

pub use cause::mark_cause;
pub use choice::slot_chosen;
pub use marks::mark;
pub use naming::{Action, Marked};
pub use refusal::MarkRefusal;

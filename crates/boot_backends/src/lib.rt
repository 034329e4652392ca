//! Marks names and reads the variables of a boot loader, by its own programs.
#![tactic(auto)]

mod cause;
mod marks;
mod reading;
mod refusal;
mod runs;

pub use cause::boot_cause;
pub use marks::{make_primary, mark_bad, mark_good};
pub use reading::{primary, read_vars, slot_in};
pub use refusal::BootRefusal;

//! The configuration of a system: its slots, its boot loader, and where the updater keeps its files.
#![tactic(auto)]

mod cause;
mod conf_refusal;
mod conflicts;
mod duplicates;
mod key_table;
mod keys;
mod mandatory;
mod own_files;
mod parents;
mod read_slots;
mod reader;
mod reading;
mod roots;
mod settings;
mod slot;
mod slot_limit;
mod slot_names;
mod system;
mod values;

pub use cause::conf_cause;
pub use conf_refusal::ConfRefusal;
use reader::Reader;
pub use reading::read_system;
pub use roots::root_of;
pub use slot::{Slot, SlotKind, name_at};
pub use system::{Helpers, System};

//! The forms of the values in the updater's key files, and the search for groups and keys that a table
//! of them does not know, leaves out, or whose values are bad.
#![tactic(auto)]

mod cause;
mod class;
mod form;
mod formed;
mod key_table;
mod list;
mod slot_name;
mod walk;

pub use cause::place_cause;
pub use class::is_class;
pub use form::{Form, attempts_of, without_slash};
pub use formed::value_with_form;
pub use key_table::KeyTable;
pub use list::has_item;
pub use slot_name::{SlotGroup, is_slot_name, slot_group, slot_groups};
pub use walk::{KeyPlace, first_bad, first_left_out, first_unknown, missing_key};

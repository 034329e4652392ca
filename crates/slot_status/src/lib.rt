//! The status of the slots: which bundle each was installed from, in what state it is, and when and how
//! often it was installed and activated; and the status file that keeps it.
#![tactic(auto)]

mod book;
mod bundle;
mod cause;
mod changes;
mod day;
mod image_file;
mod known;
mod reading;
mod refusal;
mod slot_record;
mod time;
mod values;
mod writing;

pub use book::StatusBook;
pub use cause::status_cause;
pub use reading::read_book;
pub use refusal::StatusRefusal;
pub use slot_record::SlotRecord;

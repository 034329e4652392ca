//! The command `rauc`: what its words ask for, what it does, and what it reports.
#![tactic(auto)]

mod conf;
mod info_lines;
mod install_lines;
mod installing;
mod lines;
mod outcome;
mod run;
mod slot_lines;

pub use conf::{BadConf, NoSystem, load_system, read_conf};
pub use install_core::{InstallRefusal, Request};
pub use mark_report::{Form, InfoRefusal};
pub use outcome::{Finish, Outcome};
pub use rauc_words::{Asked, Command, Place, Run, read_words};
pub use run::rauc;
pub use slot_marks::{Action, MarkRefusal, Marked, mark};
pub use slot_writer::{SlotRefusal, SlotWritten, write_slot};
pub use status_report::{StatusView, status, status_text};

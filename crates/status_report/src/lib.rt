//! What there is to tell of the slots of a system, and that as text.
#![tactic(auto)]

mod readable;
mod shell;
mod text;
mod view;
mod words;

pub use text::status_text;
pub use updater_text::Form;
pub use view::{StatusView, status};

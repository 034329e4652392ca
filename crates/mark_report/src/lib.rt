//! What there is to tell of a bundle: its manifest, and that as text.
#![tactic(auto)]

mod bundle_info;
mod cause;
mod readable;
mod shell;
mod text;

pub use bundle_info::{InfoEnd, InfoRefusal, info};
pub use cause::info_cause;
pub use text::info_text;
pub use updater_text::Form;

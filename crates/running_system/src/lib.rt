//! What is booted and mounted, by the machine.
#![tactic(auto)]

mod files;
mod mount_state;
mod running;

pub use files::file_within;
pub use mount_state::{is_mounted, what_is_mounted};
pub use running::{in_use, is_in_use, what_runs};

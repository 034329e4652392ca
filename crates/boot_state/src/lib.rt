//! What the variables of a boot loader mean: which names it may boot, and which one it boots next.
#![tactic(auto)]

pub mod barebox;
mod custom;
pub mod efi;
mod grub;
mod named;
mod order;
mod state;
mod uboot;
mod variable;

pub use efi::is_entry_number;
pub use named::has_name;
pub use state::{good_of, primary_of};

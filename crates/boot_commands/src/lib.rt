//! Which commands read and change the variables of a boot loader. Nothing here runs them.
#![tactic(auto)]

mod barebox;
mod command;
mod custom;
mod efi;
mod grub;
mod lists;
mod order;
mod plans;
mod texts;
mod uboot;
mod words;

pub use command::{Command, Mark, Setting};
pub use plans::{looks_of, plan_of, readings_of};
pub use words::{arguments_of, program_of};

//! What the programs of boot loaders do with the loaders' variables.
#![tactic(auto)]

mod barebox;
mod custom;
mod efi;
mod entry;
mod grub;
mod program_end;
mod programs;
mod settings;
mod uboot;

pub use program_end::ProgramEnd;
pub use programs::program;

//! What the printed texts of boot loaders' programs say of the variables.
#![tactic(auto)]

mod barebox;
mod custom;
mod efi;
mod grub;
mod outputs;
mod texts;
mod uboot;

pub use outputs::take_output;

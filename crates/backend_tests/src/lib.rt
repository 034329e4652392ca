//! Tests of the marks of names and of the reading of boot variables, on the machine in memory.
#![tactic(auto)]

#[cfg(test)]
mod answers;
#[cfg(test)]
mod barebox_tests;
#[cfg(test)]
mod cases;
#[cfg(test)]
mod custom_tests;
#[cfg(test)]
mod efi_tests;
#[cfg(test)]
mod grub_tests;
#[cfg(test)]
mod setups;
#[cfg(test)]
mod uboot_tests;

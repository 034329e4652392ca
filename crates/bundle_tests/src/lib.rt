//! Tests of the children that check, mount and unmount a bundle, of its hooks and of handlers, on the
//! machine in memory, and of what is told of a bundle.
#![tactic(auto)]

#[cfg(test)]
mod check_tests;
#[cfg(test)]
mod hook_tests;
#[cfg(test)]
mod info_tests;
#[cfg(test)]
mod mount_tests;
#[cfg(test)]
mod setups;

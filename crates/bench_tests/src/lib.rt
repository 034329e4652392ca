//! Tests of the machine in memory, by its public calls alone, and of images that are put on its disks.
#![tactic(auto)]

#[cfg(test)]
mod boot_tests;
#[cfg(test)]
mod call_tests;
#[cfg(test)]
mod child_tests;
#[cfg(test)]
mod put_tests;
#[cfg(test)]
mod setups;
#[cfg(test)]
mod steps;
#[cfg(test)]
mod stop_tests;

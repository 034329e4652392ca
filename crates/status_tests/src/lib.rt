//! Tests of the records of the slots and of the status file.
#![tactic(auto)]

#[cfg(test)]
mod books;
#[cfg(test)]
mod change_tests;
#[cfg(test)]
mod file_tests;

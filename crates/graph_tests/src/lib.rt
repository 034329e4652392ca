//! Tests of which slots run, which images go to which slots, what is mounted and which files are
//! archives.
#![tactic(auto)]

#[cfg(test)]
mod assign_tests;
#[cfg(test)]
mod slot_tests;

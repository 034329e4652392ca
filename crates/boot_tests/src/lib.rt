//! Tests of what the variables of a boot loader mean, of what its programs do with them, of which
//! commands change them, and of what is read from printed texts.
#![tactic(auto)]

#[cfg(test)]
mod command_tests;
#[cfg(test)]
mod output_tests;
#[cfg(test)]
mod program_tests;
#[cfg(test)]
mod state_tests;

//! Tests of the machine over a real system: its files, its children and its clock.
#![tactic(auto)]

#[cfg(test)]
mod files;
#[cfg(test)]
mod paths;
#[cfg(test)]
mod replacements;
#[cfg(test)]
mod runs;
#[cfg(test)]
mod steps;
#[cfg(test)]
mod watched;

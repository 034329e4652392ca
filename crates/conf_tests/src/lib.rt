//! Tests of key files, the forms of their values, the configuration of a system, manifests, and
//! boot variables.
#![tactic(auto)]

#[cfg(test)]
mod keyfile_tests;
#[cfg(test)]
mod manifest_tests;
#[cfg(test)]
mod system_tests;
#[cfg(test)]
mod vars_tests;

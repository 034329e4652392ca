//! Tests of the marks of slots, on the machine in memory.
#![tactic(auto)]

#[cfg(test)]
mod beds;
#[cfg(test)]
mod mark_tests;
#[cfg(test)]
mod stop_tests;

//! Tests of D-Bus messages, beside what their contracts say.
#![tactic(auto)]

#[cfg(test)]
mod answers;
#[cfg(test)]
mod limit_tests;
#[cfg(test)]
mod limits;
#[cfg(test)]
mod numbers;
#[cfg(test)]
mod random_tests;
#[cfg(test)]
mod row_tests;
#[cfg(test)]
mod rows;
#[cfg(test)]
mod write_tests;

//! Tests of D-Bus values, beside what their contracts say.
#![tactic(auto)]

#[cfg(test)]
mod again;
#[cfg(test)]
mod random_tests;
#[cfg(test)]
mod row_tests;

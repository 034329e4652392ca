//! Tests of texts, numbers and sinks, beside what their contracts say.
#![tactic(auto)]

#[cfg(test)]
mod spelling_tests;
#[cfg(test)]
mod writer_tests;

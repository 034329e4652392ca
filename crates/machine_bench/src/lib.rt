//! A machine in memory on which tests run. It meets the machine's contract in every clause, fails and
//! stops on request, and tells its past.
#![tactic(auto)]

mod bench;
mod scripts;
mod setup;
mod stopped;

pub use bench::Bench;
pub use setup::{Script, Setup};
pub use undo_log::Effect;

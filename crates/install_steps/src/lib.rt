//! The doing of the list of an install: one step after another.
#![tactic(auto)]

mod doing;
mod marking;
mod noting;
mod programs;
mod putting;
mod running;

pub use running::{Installed, JobEnd, run_acts};

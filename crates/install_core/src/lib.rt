//! The install of a bundle, from its mount to its unmount.
#![tactic(auto)]

mod ending;
mod installing;
mod preparing;
mod working;

pub use ending::InstallEnd;
pub use install_facts::{
    Facts, Gathered, InstallRefusal, Note, Report, Request, gather, install_cause,
};
pub use install_plan::{Act, Caller, Step, acts_of, steps_of};
pub use install_steps::{Installed, JobEnd};
pub use installing::install;

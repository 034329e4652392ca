//! Which slots run, which roots they lie under, which slots an update goes to, what is mounted, and
//! which files are archives.
#![tactic(auto)]

mod archive;
mod assigning;
mod cause;
mod job;
mod kernel;
mod mounted;
mod roots;
mod state;
mod target;
mod told;

pub use archive::is_archive;
pub use assigning::{AssignRefusal, assign};
pub use cause::{archive_cause, assign_cause, matter_at};
pub use job::Job;
pub use mounted::{Mount, mounts};
pub use roots::root_of;
pub use state::{Booted, SlotState, states};
pub use target::targets;
pub use told::booted;

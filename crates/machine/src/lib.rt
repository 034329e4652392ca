//! The machine as the updater sees it: disks, files, boot variables and children, the calls on them,
//! and what a stop of the power may leave of it.
#![tactic(auto)]

mod calls;
mod copies;
mod ended;
mod fault;
mod law;
mod reads;
mod stops;
mod words;
mod world;

pub use calls::{CallStop, Machine, ReadStop, RunStop};
pub use copies::{TryClone, copy_bytes, copy_items};
pub use ended::ended_text;
pub use fault::fault_cause;
pub use law::held_joins;
pub use reads::fill;
pub use stops::{Fault, Stop};
pub use words::words_of;
pub use world::{
    Child, ChildClass, Ended, EnvVar, Exit, KEPT_OUTPUT, Named, RunNote, Span, Spares, World,
};

//! A world in memory with an undo log: each call on it is noted with what takes it back, so that the
//! world at any earlier moment follows from the world as it is.
#![tactic(auto)]

mod changes;
mod effect;
mod effects;
mod log;
mod lookup;
mod notes;

pub use effect::Effect;
pub use log::UndoLog;
pub use lookup::{bytes_of, has_room};
pub use notes::{NotedCall, Whole};

//! An install whose notes are printed: each is a line on a sink, put as it comes.
#![tactic(auto)]

mod line;
mod printing;
mod telling;

pub use printing::{Home, Lent, NoteLines};
pub use telling::{Told, install_noting};

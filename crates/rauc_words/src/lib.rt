//! What the words of a command line ask for.
#![tactic(auto)]

mod asked;
mod command_line;
mod table;

pub use asked::{Asked, Command, Place, Run, slot_word};
pub use slot_marks::Action;
pub use table::read_words;

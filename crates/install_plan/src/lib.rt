//! What an install does from its first change on: made as one list before that, with its notes.
#![tactic(auto)]

mod acts;
mod children;
mod roots;
mod step;
mod works;

pub use acts::{acts_of, steps_of};
pub use step::{Act, Caller, Step};

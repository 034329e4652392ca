//! Key files: groups of keys and values, as text.
#![tactic(auto)]

mod cause;
mod escape;
mod fault;
mod forms;
mod key_file;
mod line;
mod list;
mod reading;
mod writing;

pub use cause::key_cause;
pub use fault::KeyFault;
pub use forms::fits;
pub use key_file::KeyFile;
pub use list::items;
pub use reading::read;

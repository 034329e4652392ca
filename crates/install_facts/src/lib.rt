//! What an install has to know before it changes anything, and why it does not go on.
#![tactic(auto)]

mod accept;
mod cause;
mod choose;
mod facts;
mod gathering;
mod images;
mod know;
mod ready;
mod refusal;
mod report;
mod request;

pub use cause::install_cause;
pub use facts::Facts;
pub use gathering::{Gathered, gather};
pub use images::image_path;
pub use refusal::InstallRefusal;
pub use report::{Note, Report};
pub use request::Request;

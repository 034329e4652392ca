//! Writing an image to the front of a device.
#![tactic(auto)]

mod check;
mod put;
mod whole;

pub use check::{PutRefusal, check_image, put_cause};
pub use put::{PutJob, Written, put_image};
pub use whole::{WholeStop, write_whole};

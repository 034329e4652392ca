//! The machine over the files, devices and programs of a Linux system.
//!
//! - `linux`: the machine with its counts and the files that it keeps open, and the clock
//! - `opened`: a file that is open, read and written at offsets, and the advice to the kernel
//! - `whole`: whole files, lengths, and what the errors of the system mean
//! - `replacing`: a new file in the place of another
//! - `children`: a program that is run to its end, and the front of its output
#![tactic(auto)]

mod children;
mod linux;
mod opened;
mod replacing;
mod whole;

pub use linux::Linux;

//! The boot loader of a system, and its variables.
#![tactic(auto)]

mod boot_kind;
mod vars;

pub use boot_kind::BootKind;
pub use vars::Vars;

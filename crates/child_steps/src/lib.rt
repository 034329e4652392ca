//! The programs that check, mount and unmount a bundle, its hooks and the handlers of a system, as
//! children of the machine.
#![tactic(auto)]

mod bundle;
mod cause;
mod check;
mod close;
mod env;
mod handlers;
mod helper;
mod hooks;
mod mount;
mod mounted;
mod refusal;
mod spared;

pub use bundle::{BundleRefusal, read_bundle};
pub use cause::{bundle_cause, check_cause, closing_cause, mount_cause};
pub use check::install_check;
pub use close::{Closing, close_bundle};
pub use handlers::{HandlerContext, HandlerKind, handler};
pub use helper::{check_child, mount_child, mount_point, umount_child};
pub use hooks::{HookContext, HookKind, check_hook, slot_hook};
pub use mount::mount_bundle;
pub use mounted::Mounted;
pub use refusal::{CheckRefusal, MountRefusal};
pub use spared::install_spares;

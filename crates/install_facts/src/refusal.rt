use boot_backends::BootRefusal;
use child_steps::{BundleRefusal, CheckRefusal, HandlerKind, HookKind, MountRefusal};
use machine::Ended;
use raw_writer::PutRefusal;
use slot_graph::AssignRefusal;
use slot_status::StatusRefusal;
use updater_text::Text;

/// Why a bundle is not installed. Slots and images are told by their places.
#[derive(Debug, Drop)]
pub enum InstallRefusal {
    /// It is not trusted, or not mounted.
    Mount(MountRefusal),
    /// Nothing tells which slot is booted.
    BootedUnknown,
    /// Its manifest is not read.
    Bundle(BundleRefusal),
    /// It is for another system.
    Compatible {
        system: Text,
        bundle: Text,
    },
    /// Its hook did not let it be installed.
    Check(CheckRefusal),
    /// An image goes to no slot.
    Assign(AssignRefusal),
    /// It cannot be read what is mounted.
    MountsUnread,
    /// The slot of an image is mounted.
    Mounted {
        slot: usize,
    },
    /// The image in the file of this name is not put on the device of its slot.
    Image {
        image: usize,
        name: Text,
        cause: PutRefusal,
    },
    /// The status file cannot note that a slot was installed or activated.
    Status(StatusRefusal),
    /// A handler of the system ended so.
    HandlerFailed {
        which: HandlerKind,
        ended: Ended,
    },
    /// A hook of the bundle ended so.
    HookFailed {
        which: HookKind,
        slot: usize,
        ended: Ended,
    },
    /// The programs of the boot loader did not mark a name.
    Boot(BootRefusal),
}

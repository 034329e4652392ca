use raw_writer::PutRefusal;
use updater_text::{Digest, Text};

/// Why a slot is not written.
#[derive(Debug, Drop)]
pub enum SlotRefusal {
    /// No slot of the configuration has this name.
    NoSuchSlot { text: Text },
    /// What is booted is not known: the name that was given, or the kernel's command line, tells no
    /// slot, or the command line cannot be read.
    BootedUnknown,
    /// The slot at this place is in use: it is booted, or its root is.
    Busy { slot: usize },
    /// The slot at this place is configured as read-only.
    ReadOnly { slot: usize },
    /// The image at this path is an archive, which is not unpacked.
    ArchiveImage { image: Text },
    /// The slot at this place is of a type that is not written to.
    WrongType { slot: usize },
    /// What is mounted cannot be read.
    MountsUnread,
    /// The device of the slot at this place is mounted.
    Mounted { slot: usize },
    /// The image is not put on the slot's device.
    Image(PutRefusal),
}

/// A slot that was written: its place among the slots, the image's length in bytes, the SHA-256 of
/// what was written, and whether there is a status file that could not be read.
#[derive(Debug, Drop)]
pub struct SlotWritten {
    pub slot: usize,
    pub size: u64,
    pub digest: Digest,
    pub book_unread: bool,
}

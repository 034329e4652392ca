use updater_text::{Items, Text};

/// What a child does to the world. What the child must leave alone stays as it is.
#[derive(Drop)]
pub enum Effect {
    /// Puts a file with these bytes at the path, unless a disk is there.
    PutFile {
        path: Text,
        bytes: Items<u8>,
    },
    /// Drops each file whose path begins so.
    DropFiles {
        prefix: Text,
    },
    /// Writes the bytes to a disk from byte `at` on, which is not done where they don't lie on it.
    /// They are pending then.
    WriteDisk {
        path: Text,
        at: u64,
        bytes: Items<u8>,
    },
}

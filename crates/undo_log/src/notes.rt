use boot_model::Vars;
use machine::{Child, Named, Span};
use updater_text::{Items, Text};

/// A call that was asked for, with what its past tells: of a read the number of bytes that it gave,
/// of the clock the seconds that it said.
#[derive(Drop)]
pub enum NotedCall {
    File { path: Text },
    Size { path: Text },
    Read { path: Text, count: u64 },
    Write { path: Text, at: u64, count: u64 },
    Sync { path: Text },
    Replace { path: Text, bytes: Items<u8> },
    Run { child: Child },
    Clock { seconds: i64 },
}

/// How a call ended: it was done, it failed, or the file was longer than asked for.
#[derive(Clone, Copy, Debug, PartialEq, Eq)]
pub enum NotedEnd {
    Done,
    Failed,
    TooLong,
}

/// A change of the world, with what takes it back.
#[derive(Drop)]
pub enum Change {
    /// So many bytes of a file were read.
    Fetched {
        count: u64,
    },
    /// These bytes of a disk were written over; the write is last among those pending and of all.
    Wrote {
        path: Text,
        at: u64,
        replaced: Items<u8>,
    },
    /// These bytes of a disk were written over by a child; its range is the last that is pending.
    ChildWrote {
        path: Text,
        at: u64,
        replaced: Items<u8>,
    },
    /// These ranges were pending before a sync.
    Synced {
        pending: Items<Span>,
    },
    /// A file was put in the place of these bytes, or as the last.
    Put {
        path: Text,
        replaced: Option<Items<u8>>,
    },
    /// Files were dropped: these were there, but for an empty one at each place that is marked. From
    /// those places the files that stay were taken, in their order.
    Dropped {
        places: Items<Named>,
        stays: Items<bool>,
    },
    /// A child was noted as the last run.
    Ran,
    /// The boot variables were these before.
    Varied {
        vars: Vars,
    },
}

/// A call, and the changes that it made.
#[derive(Drop)]
pub struct Note {
    pub call: NotedCall,
    pub end: NotedEnd,
    pub changes: Items<Change>,
}

/// A whole file that was looked up: its bytes, if there are any, or how long it is where that is more
/// than was asked for.
#[derive(Drop)]
pub enum Whole {
    Bytes(Option<Items<u8>>),
    TooLong(u64),
}

// Files and devices.
use crate::paths::Deed::{Has, Put};
use crate::steps::Place::{At, New};
use crate::steps::Step::{
    Beside, Count, Missing, Now, Piece, Replace, Rest, Size, Sync, Unread, Whole, Write,
};
use crate::steps::Trace::{Any, Asks};
use crate::steps::Trouble::Nothing;
use crate::steps::{Case, DONE, FAILED, Watch, first_wrong, first_wrong_watched};
use machine::{CallStop, ReadStop};
use std::fs;
use std::os::unix::fs::FileTypeExt;

static CASES: [Case<'static>; 12] = [
    // it writes and reads back
    Case {
        place: New("disk", "................"),
        steps: &[
            Write(13, "abc", DONE),
            Write(0, "d", DONE),
            Sync(DONE),
            Whole(16, "d............abc"),
        ],
    },
    // it lets a file go before it is replaced
    Case {
        place: New("replaced", "old bytes"),
        steps: &[
            Piece(0, b"old "),
            Write(0, "OLD", DONE),
            Replace("new bytes", DONE),
            Piece(0, b"new "),
            Write(0, "NEW", DONE),
            Beside("", Has("NEW bytes")),
        ],
    },
    // it reads parts
    Case {
        place: New("image", "abc"),
        steps: &[
            Rest(Ok(2), b"bc___"),
            Count(3, Ok(0)),
            Size(false, Ok(Some(3))),
        ],
    },
    // it reads whole files within a limit
    Case {
        place: New("whole", "0123456789"),
        steps: &[
            Whole(10, "0123456789"),
            Unread(8, ReadStop::TooLong { length: 10 }),
        ],
    },
    // it lets a file go after a fault, here one that ends sooner than it did when it was opened
    Case {
        place: New("fault", "0123456789"),
        steps: &[
            Count(0, Ok(4)),
            Beside("", Put("abcdef")),
            Count(4, Err(CallStop::Failed)),
            Count(4, Ok(2)),
        ],
    },
    // it tells faults of devices; what is written to the second cannot be synced
    Case {
        place: At("/dev/full"),
        steps: &[Write(0, "abc", FAILED)],
    },
    Case {
        place: At("/dev/null"),
        steps: &[Write(0, "abc", DONE), Sync(FAILED)],
    },
    // it reads files that tell no length
    Case {
        place: At("/proc/self/cmdline"),
        steps: &[
            Size(false, Ok(Some(0))),
            Unread(3, ReadStop::TooLong { length: 4 }),
            Count(1, Ok(4)),
        ],
    },
    // it finds nothing under a missing path
    Case {
        place: At("/proc/self/missing"),
        steps: &[
            Missing(9),
            Size(true, Ok(None)),
            Count(0, Ok(0)),
            Write(0, "x", FAILED),
            Sync(FAILED),
        ],
    },
    Case {
        place: At("/proc/self/cmdline/below"),
        steps: &[Missing(9), Size(true, Ok(None)), Count(0, Ok(0))],
    },
    // it refuses folders, and a path with a NUL
    Case {
        place: At("/tmp"),
        steps: &[
            Unread(1, ReadStop::Failed),
            Size(true, Err(CallStop::Failed)),
            Count(0, Err(CallStop::Failed)),
            Write(0, "x", FAILED),
        ],
    },
    Case {
        place: At("a\0b"),
        steps: &[Unread(1, ReadStop::Failed)],
    },
];

#[test]
fn answers_for_files_and_devices(rt: HostRuntime) {
    assert_eq!(rt;
        first_wrong(rt, &rt, &CASES),
        None,
        "row and step of the files"
    );
}

static WATCHED: [Watch<'static>; 3] = [
    // it opens a file once; no byte is written at first, then some are, which it advises of, and then
    // some without advice
    (
        Nothing,
        Case {
            place: New("advised", ""),
            steps: &[
                Write(0, "", DONE),
                Write(1_048_573, "abc", DONE),
                Write(1_048_576, "def", DONE),
            ],
        },
        Asks(5_272),
    ),
    // it takes the length of a block device from its end; here a file that is said to be one, since
    // only root may open one
    (
        Nothing,
        Case {
            place: New("block", "0123456789"),
            steps: &[Size(true, Ok(Some(10)))],
        },
        Any,
    ),
    // it tells whole seconds
    (
        Nothing,
        Case {
            place: At(""),
            steps: &[Now(Ok(1_700_000_000))],
        },
        Any,
    ),
];

fn is_block_device(rt: &HostRuntime, path: &str) -> bool {
    match fs::metadata(rt, path) {
        Ok(found) => found.file_type().is_block_device(),
        Err(_) => false,
    }
}

// A block device of the system; None where it has none of these.
fn find_block_device(rt: &HostRuntime) -> Option<&'static str> {
    for path in [
        "/dev/loop0",
        "/dev/sda",
        "/dev/vda",
        "/dev/nvme0n1",
        "/dev/mmcblk0",
    ] {
        if is_block_device(rt, path) {
            return Some(path);
        }
    }
    None
}

#[test]
fn asks_the_system(rt: HostRuntime) {
    let device = find_block_device(&rt);
    if device.is_none() {
        let _ = println!(rt; "skipped: the length of a block device, since none is here");
    }
    assert_eq!(rt;
        first_wrong_watched(rt, &rt, &WATCHED, device),
        None,
        "row and step of what the system is asked for"
    );
}

use crate::setups::{Case, DISK, FILE, PLAIN, first_wrong};
use crate::steps::Step;
use std::alloc::Global;

const SIZES: &[Step] = &[
    Step::Size(DISK, true, Some(4)),
    Step::Size(FILE, true, None),
    Step::Size(FILE, false, Some(3)),
];

// The sync of another path leaves what is pending.
const SYNCS: &[Step] = &[
    Step::Write(1, &[9, 8], true),
    Step::See(&[], &[], [1, 1, 0, 1, 0]),
    Step::Sync(FILE),
    Step::See(&[], &[], [1, 1, 0, 2, 0]),
    Step::Sync(DISK),
    Step::See(&[(DISK, Some(&[1, 9, 8, 4]))], &[], [0, 1, 0, 3, 0]),
];

const OFFSETS: &[Step] = &[
    Step::ReadAt(DISK, 2, 2, [3, 4, 0, 0]),
    Step::ReadAt(FILE, 1, 2, [6, 7, 0, 0]),
    Step::See(&[], &[], [0, 0, 0, 6, 0]),
];

// The second time the file is longer than it may be.
const WHOLE_FILES: &[Step] = &[
    Step::ReadFile(FILE, 3, Some(&[5, 6, 7])),
    Step::ReadFile(FILE, 2, Some(&[5, 6, 7])),
    Step::ReadFile(DISK, 9, None),
];

const REPLACES: &[Step] = &[
    Step::Replace(FILE, &[8], true),
    Step::Replace(FILE, &[9], false),
    Step::Replace("/etc/other", &[1, 2], true),
    Step::See(
        &[],
        &[(FILE, Some(&[8])), ("/etc/other", Some(&[1, 2]))],
        [0, 0, 0, 3, 1],
    ),
];

const TIME: &[Step] = &[Step::Now(None), Step::Now(Some(1_714_564_800))];

const FAILS_BY_NUMBER: &[Step] = &[
    Step::Write(0, &[9], false),
    Step::See(&[(DISK, Some(&[1, 2, 3, 4]))], &[], [0, 0, 0, 1, 1]),
    Step::Write(0, &[9], true),
    Step::See(&[(DISK, Some(&[9, 2, 3, 4]))], &[], [1, 1, 0, 2, 1]),
];

// Half of the first write is done.
const STOPS_INSIDE_A_WRITE: &[Step] = &[
    Step::Write(0, &[9, 8, 7, 6], false),
    Step::Write(0, &[5, 5, 5, 5], false),
    Step::See(&[(DISK, Some(&[9, 8, 3, 4]))], &[], [1, 1, 0, 2, 2]),
];

// The same where the number of the stop is that of a call that fails.
const DOES_NOTHING: &[Step] = &[
    Step::Write(0, &[9, 8, 7, 6], false),
    Step::Write(0, &[5, 5, 5, 5], false),
    Step::See(&[(DISK, Some(&[1, 2, 3, 4]))], &[], [0, 0, 0, 2, 2]),
];

static CALLS: [Case; 9] = [
    Case {
        steps: SIZES,
        ..PLAIN
    },
    Case {
        steps: SYNCS,
        ..PLAIN
    },
    Case {
        steps: OFFSETS,
        ..PLAIN
    },
    Case {
        steps: WHOLE_FILES,
        ..PLAIN
    },
    Case {
        fails: &[2],
        steps: REPLACES,
        ..PLAIN
    },
    Case {
        fails: &[1],
        steps: TIME,
        ..PLAIN
    },
    Case {
        fails: &[1],
        steps: FAILS_BY_NUMBER,
        ..PLAIN
    },
    Case {
        stop: Some(1),
        steps: STOPS_INSIDE_A_WRITE,
        ..PLAIN
    },
    Case {
        fails: &[1],
        stop: Some(1),
        steps: DOES_NOTHING,
        ..PLAIN
    },
];

fn wrong_call(alloc: Global) -> Option<usize> {
    first_wrong(alloc, &CALLS)
}

#[test]
fn calls_do_as_they_should(rt: HostRuntime) {
    assert_eq!(rt; wrong_call(rt.alloc()), None);
}

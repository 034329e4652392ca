use crate::setups::{Case, DISK, PLAIN, SPARED, first_wrong};
use crate::steps::Step;
use std::alloc::Global;

// Two writes that overlap, the second up to the end of the disk.
const WRITES: Case = Case {
    fails: &[4],
    stop: Some(7),
    steps: &[Step::Write(1, &[9, 8], true), Step::Write(2, &[8, 7], true)],
    ..PLAIN
};

// What stops leave of the bytes 1, 9, 8, 7, of which all but the first were pending.
static STOPS: [Case; 4] = [
    Case {
        pick: 0,
        left: &[
            Step::See(
                &[(DISK, Some(&[1, 9, 8, 7])), (SPARED, Some(&[1, 2, 3, 4]))],
                &[],
                [0, 2, 0, 0, 0],
            ),
            Step::Sync(DISK),
            Step::See(&[], &[], [0, 2, 0, 1, 0]),
        ],
        ..WRITES
    },
    Case {
        pick: 1,
        left: &[
            Step::See(
                &[
                    (DISK, Some(&[1, 246, 247, 248])),
                    (SPARED, Some(&[1, 2, 3, 4])),
                ],
                &[],
                [0, 2, 0, 0, 0],
            ),
            Step::Sync(DISK),
            Step::See(&[], &[], [0, 2, 0, 1, 0]),
        ],
        ..WRITES
    },
    Case {
        pick: 2,
        left: &[
            Step::See(
                &[(DISK, Some(&[1, 3, 4, 5])), (SPARED, Some(&[1, 2, 3, 4]))],
                &[],
                [0, 2, 0, 0, 0],
            ),
            Step::Sync(DISK),
            Step::See(&[], &[], [0, 2, 0, 1, 0]),
        ],
        ..WRITES
    },
    Case {
        pick: 300,
        left: &[
            Step::See(
                &[
                    (DISK, Some(&[1, 45, 46, 47])),
                    (SPARED, Some(&[1, 2, 3, 4])),
                ],
                &[],
                [0, 2, 0, 0, 0],
            ),
            Step::Sync(DISK),
            Step::See(&[], &[], [0, 2, 0, 1, 0]),
        ],
        ..WRITES
    },
];

fn wrong_stop(alloc: Global) -> Option<usize> {
    first_wrong(alloc, &STOPS)
}

#[test]
fn stops_leave_what_is_picked(rt: HostRuntime) {
    assert_eq!(rt; wrong_stop(rt.alloc()), None);
}

use crate::setups::{Act, Case, DISK, FILE, MOUNT, PLAIN, Play, SPARED, first_wrong};
use crate::steps::Step;
use machine::Ended;
use std::alloc::Global;

// Three scripts, each for fewer arguments.
const THREE: &[Play] = &[
    Play {
        args: &["/b", "/m"],
        ended: Ended::Code(3),
        out: 0,
        acts: &[],
    },
    Play {
        args: &["/b"],
        ended: Ended::Signal,
        out: 0,
        acts: &[],
    },
    Play {
        args: &[],
        ended: Ended::Code(5),
        out: 0,
        acts: &[],
    },
];

// Some are done; those on what is spared, on a disk's path and past a disk's end are not.
const CHANGING: &[Play] = &[Play {
    args: &[],
    ended: Ended::Code(0),
    out: 0,
    acts: &[
        (Act::Put, "/etc/gone"),
        (Act::Put, "/mnt/image"),
        (Act::Put, "/mnt/image"),
        (Act::Put, "/etc/kept/below"),
        (Act::Put, "/proc/cmdline"),
        (Act::Put, DISK),
        (Act::Write(1), DISK),
        (Act::Write(3), DISK),
        (Act::Write(0), SPARED),
        (Act::Drop, "/etc"),
    ],
}];

// One puts out as much as is kept, and one a byte more.
const FULL: &[Play] = &[
    Play {
        args: &["full"],
        ended: Ended::Code(0),
        out: 65_536,
        acts: &[],
    },
    Play {
        args: &[],
        ended: Ended::Code(0),
        out: 65_537,
        acts: &[],
    },
];

// The first script whose arguments begin the child's is taken.
const TAKES_THE_FIRST: &[Step] = &[
    Step::Run(
        MOUNT,
        &["/b", "/m", "more"],
        Some((Ended::Code(3), 0, false)),
    ),
    Step::Run(MOUNT, &["/b", "/n"], Some((Ended::Signal, 0, false))),
    Step::Run(MOUNT, &["/c"], Some((Ended::Code(5), 0, false))),
    Step::Run("/bin/umount", &["/b"], Some((Ended::Code(127), 0, false))),
    Step::See(&[], &[], [0, 0, 4, 4, 0]),
];

// A child that fails changes nothing, and one that does not what it need not spare.
const SPARES: &[Step] = &[
    Step::Run(MOUNT, &[], None),
    Step::See(
        &[(DISK, Some(&[1, 2, 3, 4])), (SPARED, Some(&[1, 2, 3, 4]))],
        &[(FILE, Some(&[5, 6, 7]))],
        [0, 0, 0, 1, 1],
    ),
    Step::Run(MOUNT, &[], Some((Ended::Code(0), 0, false))),
    Step::See(
        &[(DISK, Some(&[1, 9, 8, 4])), (SPARED, Some(&[1, 2, 3, 4]))],
        &[
            (FILE, Some(&[5, 6, 7])),
            ("/mnt/image", Some(&[9, 8])),
            ("/etc/gone", None),
            (DISK, None),
        ],
        [1, 0, 1, 2, 1],
    ),
];

const KEEPS_THE_FRONT: &[Step] = &[
    Step::Run(MOUNT, &["full"], Some((Ended::Code(0), 65_536, false))),
    Step::Run(MOUNT, &[], Some((Ended::Code(0), 65_536, true))),
];

static CHILDREN: [Case; 3] = [
    Case {
        plays: THREE,
        steps: TAKES_THE_FIRST,
        ..PLAIN
    },
    Case {
        fails: &[1],
        plays: CHANGING,
        steps: SPARES,
        ..PLAIN
    },
    Case {
        plays: FULL,
        steps: KEEPS_THE_FRONT,
        ..PLAIN
    },
];

fn wrong_child(alloc: Global) -> Option<usize> {
    first_wrong(alloc, &CHILDREN)
}

#[test]
fn children_do_as_scripted(rt: HostRuntime) {
    assert_eq!(rt; wrong_child(rt.alloc()), None);
}

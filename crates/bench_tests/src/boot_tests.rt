use crate::setups::{Act, Case, DISK, FILE, PLAIN, Play, first_wrong};
use crate::steps::Step;
use machine::Ended;
use std::alloc::Global;

const DONE: Ended = Ended::Code(0);

// Without a script a program of the system's own does as its words say.
const DOES_AS_ITS_WORDS_SAY: &[Step] = &[
    Step::Boot(&["get-primary"], Some((DONE, "\n"))),
    Step::Boot(&["set-primary", "A"], Some((DONE, ""))),
    Step::Variable("primary", Some("A")),
    Step::Variable("state.A", Some("good")),
    Step::Boot(&["get-primary"], Some((DONE, "A\n"))),
    Step::Boot(&["set-state", "A", "bad"], Some((DONE, ""))),
    Step::Boot(&["get-state", "A"], Some((DONE, "bad\n"))),
    Step::Boot(&["set-state", "A"], Some((Ended::Code(1), ""))),
    Step::Variable("state.A", Some("bad")),
    Step::See(
        &[(DISK, Some(&[1, 2, 3, 4]))],
        &[(FILE, Some(&[5, 6, 7]))],
        [0, 0, 6, 6, 0],
    ),
];

// One that fails changes nothing.
const FAILS: &[Step] = &[
    Step::Boot(&["set-primary", "A"], None),
    Step::Variable("primary", None),
    Step::See(&[], &[], [0, 0, 0, 1, 1]),
];

// The first ends with 0 and the second with 4; both put out two bytes, and are to write a disk.
const TWO: &[Play] = &[
    Play {
        args: &["set-primary", "A"],
        ended: Ended::Code(0),
        out: 2,
        acts: &[(Act::Write(0), DISK), (Act::Put, "/etc/new")],
    },
    Play {
        args: &["set-primary"],
        ended: Ended::Code(4),
        out: 2,
        acts: &[(Act::Write(0), DISK), (Act::Put, "/etc/new")],
    },
];

// A script says how a boot program ends and what it puts out, and has no effect. The variables change
// as the words say, where it ends with 0.
const ENDS_AS_SCRIPTED: &[Step] = &[
    Step::Boot(&["set-primary", "A"], Some((DONE, "\x07\x07"))),
    Step::Boot(&["set-primary", "B"], Some((Ended::Code(4), "\x07\x07"))),
    Step::Variable("primary", Some("A")),
    Step::Variable("state.B", None),
    Step::See(
        &[(DISK, Some(&[1, 2, 3, 4]))],
        &[("/etc/new", None)],
        [0, 0, 2, 2, 0],
    ),
];

// The power stops at the second.
const STOPS: &[Step] = &[
    Step::Boot(&["set-primary", "A"], Some((DONE, ""))),
    Step::Boot(&["set-primary", "B"], None),
];

const GOES_ON: &[Step] = &[
    Step::Variable("primary", Some("A")),
    Step::Boot(&["get-primary"], Some((DONE, "A\n"))),
    Step::Boot(&["set-primary", "B"], Some((DONE, ""))),
    Step::Variable("primary", Some("B")),
];

static BOOTS: [Case; 4] = [
    Case {
        steps: DOES_AS_ITS_WORDS_SAY,
        ..PLAIN
    },
    Case {
        fails: &[1],
        steps: FAILS,
        ..PLAIN
    },
    Case {
        plays: TWO,
        steps: ENDS_AS_SCRIPTED,
        ..PLAIN
    },
    Case {
        stop: Some(2),
        steps: STOPS,
        left: GOES_ON,
        ..PLAIN
    },
];

fn wrong_boot(alloc: Global) -> Option<usize> {
    first_wrong(alloc, &BOOTS)
}

#[test]
fn boot_programs_change_the_variables(rt: HostRuntime) {
    assert_eq!(rt; wrong_boot(rt.alloc()), None);
}

use crate::cases::{Answer, Call, Case, Device, Play, SILENT, Step, THREE, TWO, first_wrong};
use std::alloc::Global;

const BAREBOX: Device = Device {
    boot: "barebox\nboot-attempts=4",
    slots: TWO,
    machine: "barebox",
};

const NAMED_STATE: Device = Device {
    boot: "barebox\nbarebox-statename=emmc",
    slots: TWO,
    machine: "barebox",
};

const BAREBOX_OF_THREE: Device = Device {
    slots: THREE,
    ..BAREBOX
};

const GET: &str =
    "barebox-state|-g|bootstate.A.priority|-g|bootstate.A.remaining_attempts|-g|bootstate.B.priority|-g|bootstate.B.remaining_attempts";

const GETS: Step = (GET, None);

// The last line lacks its line feed, and is a number of so many digits that the text is as long as
// what is kept of it.
const LONG: Play = Play {
    words: GET,
    out: b"20\n3\n30\n3",
    fill: b'0',
    more: 65_527,
    ..SILENT
};

const PRIMARY: Case = Case {
    vars: "bootstate.A.priority=20\nbootstate.A.remaining_attempts=3\nbootstate.B.priority=0\nbootstate.B.remaining_attempts=0",
    plays: &[],
    call: Call::Primary("B"),
    steps: &[
        GETS,
        (
            "barebox-state|-s|bootstate.A.priority=10|-s|bootstate.B.priority=20|-s|bootstate.B.remaining_attempts=3",
            Some(
                "bootstate.A.priority=10\nbootstate.A.remaining_attempts=3\nbootstate.B.priority=20\nbootstate.B.remaining_attempts=3",
            ),
        ),
    ],
    answer: Answer::Done,
};

const NOT_READ: Case = Case {
    steps: &[GETS],
    answer: Answer::Output(GET),
    ..PRIMARY
};

static MARKS: [Case; 11] = [
    PRIMARY,
    // too few lines, none, too many, too much
    Case {
        plays: &[Play {
            words: GET,
            out: b"20\n3\n0\n",
            ..SILENT
        }],
        ..NOT_READ
    },
    Case {
        plays: &[Play {
            words: GET,
            ..SILENT
        }],
        ..NOT_READ
    },
    Case {
        plays: &[Play {
            words: GET,
            out: b"20\n3\n0\n0\n\n",
            ..SILENT
        }],
        ..NOT_READ
    },
    Case {
        plays: &[Play {
            more: 65_528,
            ..LONG
        }],
        ..NOT_READ
    },
    // a name without a priority gets none
    Case {
        vars: "bootstate.A.priority=x",
        steps: &[
            GETS,
            (
                "barebox-state|-s|bootstate.B.priority=20|-s|bootstate.B.remaining_attempts=3",
                Some(
                    "bootstate.A.priority=x\nbootstate.B.priority=20\nbootstate.B.remaining_attempts=3",
                ),
            ),
        ],
        ..PRIMARY
    },
    // nothing is read
    Case {
        call: Call::Bad("A"),
        steps: &[(
            "barebox-state|-s|bootstate.A.priority=0|-s|bootstate.A.remaining_attempts=0",
            Some(
                "bootstate.A.priority=0\nbootstate.A.remaining_attempts=0\nbootstate.B.priority=0\nbootstate.B.remaining_attempts=0",
            ),
        )],
        ..PRIMARY
    },
    Case {
        vars: "",
        call: Call::Bad("B"),
        steps: &[(
            "barebox-state|-s|bootstate.B.priority=0|-s|bootstate.B.remaining_attempts=0",
            Some("bootstate.B.priority=0\nbootstate.B.remaining_attempts=0"),
        )],
        ..PRIMARY
    },
    Case {
        vars: "bootstate.A.priority=7",
        call: Call::Good("A"),
        steps: &[
            GETS,
            (
                "barebox-state|-s|bootstate.A.remaining_attempts=4",
                Some("bootstate.A.priority=7\nbootstate.A.remaining_attempts=4"),
            ),
        ],
        ..PRIMARY
    },
    // a priority that is no number, empty or not there is 0
    Case {
        vars: "bootstate.B.priority=x",
        call: Call::Good("B"),
        steps: &[
            GETS,
            (
                "barebox-state|-s|bootstate.B.remaining_attempts=4|-s|bootstate.B.priority=10",
                Some("bootstate.B.priority=10\nbootstate.B.remaining_attempts=4"),
            ),
        ],
        ..PRIMARY
    },
    Case {
        vars: "bootstate.A.priority=",
        call: Call::Good("B"),
        steps: &[
            GETS,
            (
                "barebox-state|-s|bootstate.B.remaining_attempts=4|-s|bootstate.B.priority=10",
                Some(
                    "bootstate.A.priority=\nbootstate.B.priority=10\nbootstate.B.remaining_attempts=4",
                ),
            ),
        ],
        ..PRIMARY
    },
];

const READS: Case = Case {
    vars: "bootstate.A.priority=20\nbootstate.B.priority=\nx=y",
    plays: &[],
    call: Call::ReadVars,
    steps: &[GETS],
    answer: Answer::Read(
        "bootstate.A.priority=20\nbootstate.A.remaining_attempts=0\nbootstate.B.priority=\nbootstate.B.remaining_attempts=0",
    ),
};

const BOOTS: Case = Case {
    vars: "",
    plays: &[],
    call: Call::PrimarySlot,
    steps: &[GETS],
    answer: Answer::Slot(None),
};

static READINGS: [Case; 9] = [
    READS,
    // the last line may lack its line feed
    Case {
        plays: &[Play {
            words: GET,
            out: b"1\n2\n3\n4",
            ..SILENT
        }],
        answer: Answer::Read(
            "bootstate.A.priority=1\nbootstate.A.remaining_attempts=2\nbootstate.B.priority=3\nbootstate.B.remaining_attempts=4",
        ),
        ..READS
    },
    Case {
        plays: &[Play {
            words: GET,
            out: b"1\n2\n3\n",
            ..SILENT
        }],
        answer: Answer::Output(GET),
        ..READS
    },
    BOOTS,
    // of equal priorities the first name
    Case {
        vars: "bootstate.A.priority=20\nbootstate.A.remaining_attempts=1\nbootstate.B.priority=20\nbootstate.B.remaining_attempts=3",
        answer: Answer::Slot(Some(0)),
        ..BOOTS
    },
    Case {
        vars: "bootstate.A.priority=10\nbootstate.A.remaining_attempts=1\nbootstate.B.priority=20\nbootstate.B.remaining_attempts=3",
        answer: Answer::Slot(Some(2)),
        ..BOOTS
    },
    Case {
        vars: "bootstate.A.priority=30\nbootstate.A.remaining_attempts=x\nbootstate.B.priority=1\nbootstate.B.remaining_attempts=1",
        answer: Answer::Slot(Some(2)),
        ..BOOTS
    },
    // a carriage return belongs to the value
    Case {
        plays: &[Play {
            words: GET,
            out: b"20\r\n3\n10\n3\n",
            ..SILENT
        }],
        answer: Answer::Slot(Some(2)),
        ..BOOTS
    },
    // the number has too many digits
    Case {
        plays: &[LONG],
        answer: Answer::Slot(Some(0)),
        ..BOOTS
    },
];

static NAMED: [Case; 2] = [
    Case {
        vars: "bootstate.B.priority=3",
        plays: &[],
        call: Call::Good("B"),
        steps: &[
            (
                "barebox-state|-n|emmc|-g|bootstate.A.priority|-g|bootstate.A.remaining_attempts|-g|bootstate.B.priority|-g|bootstate.B.remaining_attempts",
                None,
            ),
            (
                "barebox-state|-n|emmc|-s|bootstate.B.remaining_attempts=3",
                Some("bootstate.B.priority=3\nbootstate.B.remaining_attempts=3"),
            ),
        ],
        answer: Answer::Done,
    },
    Case {
        vars: "",
        plays: &[],
        call: Call::Bad("B"),
        steps: &[(
            "barebox-state|-n|emmc|-s|bootstate.B.priority=0|-s|bootstate.B.remaining_attempts=0",
            Some("bootstate.B.priority=0\nbootstate.B.remaining_attempts=0"),
        )],
        answer: Answer::Done,
    },
];

// The names stand in the order of the slots.
static THIRD: [Case; 1] = [Case {
    vars: "bootstate.A.priority=1\nbootstate.B.priority=0\nbootstate.C.priority=20",
    plays: &[],
    call: Call::Primary("B"),
    steps: &[
        (
            "barebox-state|-g|bootstate.A.priority|-g|bootstate.A.remaining_attempts|-g|bootstate.B.priority|-g|bootstate.B.remaining_attempts|-g|bootstate.C.priority|-g|bootstate.C.remaining_attempts",
            None,
        ),
        (
            "barebox-state|-s|bootstate.A.priority=10|-s|bootstate.B.priority=20|-s|bootstate.B.remaining_attempts=3|-s|bootstate.C.priority=10",
            Some(
                "bootstate.A.priority=10\nbootstate.B.priority=20\nbootstate.B.remaining_attempts=3\nbootstate.C.priority=10",
            ),
        ),
    ],
    answer: Answer::Done,
}];

fn wrong_rows(alloc: Global) -> [Option<usize>; 4] {
    [
        first_wrong(alloc, &BAREBOX, &MARKS),
        first_wrong(alloc, &BAREBOX, &READINGS),
        first_wrong(alloc, &NAMED_STATE, &NAMED),
        first_wrong(alloc, &BAREBOX_OF_THREE, &THIRD),
    ]
}

#[test]
fn barebox(rt: HostRuntime) {
    assert_eq!(rt; wrong_rows(rt.alloc()), [None; 4]);
}

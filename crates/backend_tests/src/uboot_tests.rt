use crate::cases::{Answer, Call, Case, Device, Play, SILENT, Step, THREE, TWO, first_wrong};
use machine::Ended;
use std::alloc::Global;

const UBOOT: Device = Device {
    boot: "uboot\nboot-attempts-primary=5",
    slots: TWO,
    machine: "uboot",
};

const UBOOT_OF_THREE: Device = Device {
    slots: THREE,
    ..UBOOT
};

const WHOLE: &str = "BOOT_A_LEFT=3\nBOOT_B_LEFT=3\nBOOT_ORDER=A B";

const ORDER: &str = "fw_printenv|BOOT_ORDER";

const PRINTS: Step = (ORDER, None);

// An order that is as long as what is kept of it, and one that is a byte longer.
const LONG: Play = Play {
    words: ORDER,
    out: b"BOOT_ORDER=A\n",
    more: 65_523,
    ..SILENT
};

// The program says that the variable is not set.
const UNSET: Play = Play {
    words: ORDER,
    ended: Ended::Code(1),
    ..SILENT
};

const B_BEHIND_A: &[Step] = &[
    PRINTS,
    (
        "fw_setenv|BOOT_B_LEFT|3",
        Some("BOOT_B_LEFT=3\nBOOT_ORDER=A"),
    ),
    (
        "fw_setenv|BOOT_ORDER|A B",
        Some("BOOT_B_LEFT=3\nBOOT_ORDER=A B"),
    ),
];

const GOOD: Case = Case {
    vars: "BOOT_ORDER=A",
    plays: &[],
    call: Call::Good("B"),
    steps: B_BEHIND_A,
    answer: Answer::Done,
};

const NOT_READ: Case = Case {
    steps: &[PRINTS],
    answer: Answer::Output(ORDER),
    ..GOOD
};

static MARKS: [Case; 21] = [
    GOOD,
    Case {
        vars: "BOOT_ORDER=B A",
        steps: &[
            PRINTS,
            (
                "fw_setenv|BOOT_B_LEFT|3",
                Some("BOOT_B_LEFT=3\nBOOT_ORDER=B A"),
            ),
        ],
        ..GOOD
    },
    // without an order
    Case {
        vars: "BOOT_B_LEFT=x",
        steps: &[
            PRINTS,
            ("fw_setenv|BOOT_B_LEFT|3", Some("BOOT_B_LEFT=3")),
            (
                "fw_setenv|BOOT_ORDER|B",
                Some("BOOT_B_LEFT=3\nBOOT_ORDER=B"),
            ),
        ],
        ..GOOD
    },
    // only the first line counts
    Case {
        plays: &[Play {
            words: ORDER,
            out: b"BOOT_ORDER=A\nBOOT_ORDER=B\n",
            ..SILENT
        }],
        ..GOOD
    },
    Case {
        plays: &[LONG],
        ..GOOD
    },
    // the variable is said not to be set
    Case {
        plays: &[UNSET],
        steps: &[
            PRINTS,
            (
                "fw_setenv|BOOT_B_LEFT|3",
                Some("BOOT_B_LEFT=3\nBOOT_ORDER=A"),
            ),
            (
                "fw_setenv|BOOT_ORDER|B",
                Some("BOOT_B_LEFT=3\nBOOT_ORDER=B"),
            ),
        ],
        ..GOOD
    },
    Case {
        plays: &[Play {
            err: 65_536,
            ..UNSET
        }],
        call: Call::Primary("B"),
        steps: &[
            PRINTS,
            (
                "fw_setenv|BOOT_B_LEFT|5",
                Some("BOOT_B_LEFT=5\nBOOT_ORDER=A"),
            ),
            (
                "fw_setenv|BOOT_ORDER|B A",
                Some("BOOT_B_LEFT=5\nBOOT_ORDER=B A"),
            ),
        ],
        ..GOOD
    },
    // what is printed is not read: another name, no name, nothing, too much, of the error output too
    Case {
        plays: &[Play {
            words: ORDER,
            out: b"BOOT_ORDE=A\n",
            ..SILENT
        }],
        ..NOT_READ
    },
    Case {
        plays: &[Play {
            words: ORDER,
            out: b"\nBOOT_ORDER=A\n",
            ..SILENT
        }],
        ..NOT_READ
    },
    Case {
        plays: &[Play {
            words: ORDER,
            ..SILENT
        }],
        ..NOT_READ
    },
    Case {
        plays: &[Play {
            more: 65_524,
            ..LONG
        }],
        ..NOT_READ
    },
    Case {
        plays: &[Play {
            more: 0,
            err: 65_537,
            ..LONG
        }],
        ..NOT_READ
    },
    Case {
        plays: &[Play {
            err: 65_537,
            ..UNSET
        }],
        ..NOT_READ
    },
    Case {
        vars: WHOLE,
        call: Call::Bad("B"),
        steps: &[
            PRINTS,
            (
                "fw_setenv|BOOT_B_LEFT|0",
                Some("BOOT_A_LEFT=3\nBOOT_B_LEFT=0\nBOOT_ORDER=A B"),
            ),
            (
                "fw_setenv|BOOT_ORDER|A",
                Some("BOOT_A_LEFT=3\nBOOT_B_LEFT=0\nBOOT_ORDER=A"),
            ),
        ],
        ..GOOD
    },
    Case {
        call: Call::Bad("B"),
        steps: &[
            PRINTS,
            (
                "fw_setenv|BOOT_B_LEFT|0",
                Some("BOOT_B_LEFT=0\nBOOT_ORDER=A"),
            ),
        ],
        ..GOOD
    },
    Case {
        vars: "",
        call: Call::Bad("B"),
        steps: &[PRINTS, ("fw_setenv|BOOT_B_LEFT|0", Some("BOOT_B_LEFT=0"))],
        ..GOOD
    },
    // an empty order takes the variable away
    Case {
        vars: "BOOT_ORDER=A\tA",
        call: Call::Bad("A"),
        steps: &[
            PRINTS,
            (
                "fw_setenv|BOOT_A_LEFT|0",
                Some("BOOT_A_LEFT=0\nBOOT_ORDER=A\tA"),
            ),
            ("fw_setenv|BOOT_ORDER|", Some("BOOT_A_LEFT=0")),
        ],
        ..GOOD
    },
    Case {
        vars: "",
        call: Call::Primary("B"),
        steps: &[
            PRINTS,
            ("fw_setenv|BOOT_B_LEFT|5", Some("BOOT_B_LEFT=5")),
            (
                "fw_setenv|BOOT_ORDER|B A",
                Some("BOOT_B_LEFT=5\nBOOT_ORDER=B A"),
            ),
        ],
        ..GOOD
    },
    Case {
        vars: "BOOT_ORDER= \t",
        call: Call::Primary("B"),
        steps: &[
            PRINTS,
            (
                "fw_setenv|BOOT_B_LEFT|5",
                Some("BOOT_B_LEFT=5\nBOOT_ORDER= \t"),
            ),
            (
                "fw_setenv|BOOT_ORDER|B A",
                Some("BOOT_B_LEFT=5\nBOOT_ORDER=B A"),
            ),
        ],
        ..GOOD
    },
    Case {
        vars: "BOOT_ORDER=X  A\tB X",
        call: Call::Primary("A"),
        steps: &[
            PRINTS,
            (
                "fw_setenv|BOOT_A_LEFT|5",
                Some("BOOT_A_LEFT=5\nBOOT_ORDER=X  A\tB X"),
            ),
            (
                "fw_setenv|BOOT_ORDER|A X B",
                Some("BOOT_A_LEFT=5\nBOOT_ORDER=A X B"),
            ),
        ],
        ..GOOD
    },
    Case {
        call: Call::Primary("A"),
        steps: &[
            PRINTS,
            (
                "fw_setenv|BOOT_A_LEFT|5",
                Some("BOOT_A_LEFT=5\nBOOT_ORDER=A"),
            ),
            (
                "fw_setenv|BOOT_ORDER|A",
                Some("BOOT_A_LEFT=5\nBOOT_ORDER=A"),
            ),
        ],
        ..GOOD
    },
];

const LEFT_OF_B: &str = "fw_printenv|BOOT_B_LEFT";

const ALL: &[Step] = &[PRINTS, ("fw_printenv|BOOT_A_LEFT", None), (LEFT_OF_B, None)];

const READS: Case = Case {
    vars: "",
    plays: &[],
    call: Call::ReadVars,
    steps: ALL,
    answer: Answer::Read(""),
};

const BOOTS: Case = Case {
    vars: "",
    plays: &[],
    call: Call::PrimarySlot,
    steps: ALL,
    answer: Answer::Slot(None),
};

static READINGS: [Case; 10] = [
    READS,
    // what no name is judged by is not read
    Case {
        vars: "BOOT_A_LEFT=3\nBOOT_C_LEFT=1\nBOOT_ORDER=A  B\nx=y",
        answer: Answer::Read("BOOT_A_LEFT=3\nBOOT_ORDER=A  B"),
        ..READS
    },
    Case {
        vars: WHOLE,
        plays: &[Play {
            words: LEFT_OF_B,
            out: b"BOOT_A_LEFT=3\n",
            ..SILENT
        }],
        answer: Answer::Output(LEFT_OF_B),
        ..READS
    },
    Case {
        vars: WHOLE,
        plays: &[UNSET],
        answer: Answer::Read("BOOT_A_LEFT=3\nBOOT_B_LEFT=3"),
        ..READS
    },
    BOOTS,
    Case {
        vars: WHOLE,
        answer: Answer::Slot(Some(0)),
        ..BOOTS
    },
    // no number counts as 0
    Case {
        vars: "BOOT_A_LEFT=x\nBOOT_B_LEFT=01\nBOOT_ORDER=A B",
        answer: Answer::Slot(Some(2)),
        ..BOOTS
    },
    // nor what is none
    Case {
        vars: "BOOT_A_LEFT=0\nBOOT_ORDER=A B",
        ..BOOTS
    },
    Case {
        vars: "BOOT_A_LEFT=1\nBOOT_B_LEFT=1\nBOOT_ORDER=X B\tA B",
        answer: Answer::Slot(Some(2)),
        ..BOOTS
    },
    Case {
        vars: "BOOT_A_LEFT=\nBOOT_B_LEFT=1\nBOOT_ORDER=",
        ..BOOTS
    },
];

const ALL_OF_THREE: &[Step] = &[
    PRINTS,
    ("fw_printenv|BOOT_A_LEFT", None),
    (LEFT_OF_B, None),
    ("fw_printenv|BOOT_C_LEFT", None),
];

static THIRD: [Case; 2] = [
    Case {
        vars: "BOOT_B_LEFT=0\nBOOT_C_LEFT=1\nBOOT_ORDER=A B C",
        steps: ALL_OF_THREE,
        answer: Answer::Read("BOOT_B_LEFT=0\nBOOT_C_LEFT=1\nBOOT_ORDER=A B C"),
        ..READS
    },
    Case {
        vars: "BOOT_B_LEFT=0\nBOOT_C_LEFT=1\nBOOT_ORDER=A B C",
        steps: ALL_OF_THREE,
        answer: Answer::Slot(Some(2)),
        ..BOOTS
    },
];

fn wrong_rows(alloc: Global) -> [Option<usize>; 3] {
    [
        first_wrong(alloc, &UBOOT, &MARKS),
        first_wrong(alloc, &UBOOT, &READINGS),
        first_wrong(alloc, &UBOOT_OF_THREE, &THIRD),
    ]
}

#[test]
fn uboot(rt: HostRuntime) {
    assert_eq!(rt; wrong_rows(rt.alloc()), [None; 3]);
}

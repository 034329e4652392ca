use crate::cases::{Answer, Call, Case, Device, Play, SILENT, Step, TWO, first_wrong};
use machine::Ended;
use std::alloc::Global;

const CUSTOM: Device = Device {
    boot: "custom\n[handlers]\nbootloader-custom-backend=/sbin/boot",
    slots: TWO,
    machine: "custom\n[handlers]\nbootloader-custom-backend=/sbin/boot",
};

const NOOP: Device = Device {
    boot: "noop",
    slots: TWO,
    machine: "noop",
};

const NAMELESS: Device = Device {
    boot: "barebox",
    slots: "\n[slot.rootfs.0]\ndevice=/dev/a\n",
    machine: "barebox",
};

// The machine has another boot loader than the configuration.
const OTHER: Device = Device {
    boot: "grub\ngrubenv=/env",
    slots: TWO,
    machine: "uboot",
};

const OF_PRIMARY: &str = "/sbin/boot|get-primary";

const OF_A: &str = "/sbin/boot|get-state|A";

const OF_B: &str = "/sbin/boot|get-state|B";

const GETS: Step = (OF_PRIMARY, None);

const BAD: Case = Case {
    vars: "",
    plays: &[],
    call: Call::Bad("B"),
    steps: &[("/sbin/boot|set-state|B|bad", Some("state.B=bad"))],
    answer: Answer::Done,
};

const READS: Case = Case {
    vars: "",
    plays: &[],
    call: Call::ReadVars,
    steps: &[GETS, (OF_A, None), (OF_B, None)],
    answer: Answer::Read("primary=\nstate.A=good\nstate.B=good"),
};

const NOT_READ: Case = Case {
    steps: &[GETS, (OF_A, None)],
    answer: Answer::Output(OF_A),
    ..READS
};

const BOOTS: Case = Case {
    call: Call::PrimarySlot,
    answer: Answer::Slot(None),
    ..READS
};

const LONG: Play = Play {
    words: OF_PRIMARY,
    out: b"B\n",
    more: 65_534,
    ..SILENT
};

static ROWS: [Case; 20] = [
    BAD,
    Case {
        vars: "primary=A\nstate.B=bad",
        call: Call::Good("B"),
        steps: &[(
            "/sbin/boot|set-state|B|good",
            Some("primary=A\nstate.B=good"),
        )],
        ..BAD
    },
    Case {
        vars: "primary=A\nstate.B=bad",
        call: Call::Primary("B"),
        steps: &[("/sbin/boot|set-primary|B", Some("primary=B\nstate.B=good"))],
        ..BAD
    },
    READS,
    Case {
        vars: "primary=B\nstate.A=bad",
        answer: Answer::Read("primary=B\nstate.A=bad\nstate.B=good"),
        ..READS
    },
    Case {
        vars: "primary=A\nstate.A=bad",
        answer: Answer::Read("primary=\nstate.A=bad\nstate.B=good"),
        ..READS
    },
    // nothing is printed of the primary name, and of states only the first line counts
    Case {
        vars: "primary=A",
        plays: &[
            Play {
                words: OF_PRIMARY,
                ..SILENT
            },
            Play {
                words: OF_A,
                out: b"good\nbad\n",
                ..SILENT
            },
            Play {
                words: OF_B,
                out: b"bad",
                ..SILENT
            },
        ],
        answer: Answer::Read("primary=\nstate.A=good\nstate.B=bad"),
        ..READS
    },
    // no state
    Case {
        plays: &[Play {
            words: OF_A,
            ..SILENT
        }],
        ..NOT_READ
    },
    Case {
        plays: &[Play {
            words: OF_A,
            out: b"good\r\n",
            ..SILENT
        }],
        ..NOT_READ
    },
    Case {
        plays: &[Play {
            words: OF_A,
            out: b"Bad\n",
            ..SILENT
        }],
        ..NOT_READ
    },
    Case {
        vars: "state.A=",
        ..NOT_READ
    },
    Case {
        vars: "primary=A\nstate.B=broken",
        answer: Answer::Output(OF_B),
        ..READS
    },
    // too much
    Case {
        plays: &[Play {
            more: 65_535,
            ..LONG
        }],
        steps: &[GETS],
        answer: Answer::Output(OF_PRIMARY),
        ..READS
    },
    BOOTS,
    Case {
        vars: "primary=B",
        answer: Answer::Slot(Some(2)),
        ..BOOTS
    },
    Case {
        vars: "primary=B\nstate.B=bad",
        ..BOOTS
    },
    Case {
        vars: "primary=X",
        ..BOOTS
    },
    Case {
        plays: &[LONG],
        answer: Answer::Slot(Some(2)),
        ..BOOTS
    },
    // what is told as primary is bad
    Case {
        vars: "state.B=bad",
        plays: &[LONG],
        ..BOOTS
    },
    Case {
        plays: &[Play {
            words: OF_PRIMARY,
            out: b"A\nB\n",
            ..SILENT
        }],
        answer: Answer::Slot(Some(0)),
        ..BOOTS
    },
];

// No program is run.
const NOTHING: Case = Case {
    vars: "state.A=bad",
    plays: &[],
    call: Call::Bad("B"),
    steps: &[],
    answer: Answer::Done,
};

static NONE_RUN: [Case; 5] = [
    NOTHING,
    Case {
        call: Call::Good("A"),
        ..NOTHING
    },
    Case {
        call: Call::Primary("B"),
        ..NOTHING
    },
    Case {
        call: Call::ReadVars,
        answer: Answer::Read(""),
        ..NOTHING
    },
    Case {
        call: Call::PrimarySlot,
        answer: Answer::Slot(None),
        ..NOTHING
    },
];

static NO_NAMES: [Case; 2] = [
    Case {
        call: Call::ReadVars,
        answer: Answer::Read(""),
        ..NOTHING
    },
    Case {
        call: Call::PrimarySlot,
        answer: Answer::Slot(None),
        ..NOTHING
    },
];

const LIST: &str = "grub-editenv|/env|list";

// Whatever is read, the variables stay.
static OTHERS: [Case; 2] = [
    Case {
        vars: "BOOT_ORDER=A",
        plays: &[],
        call: Call::ReadVars,
        steps: &[(LIST, None)],
        answer: Answer::Ended(LIST, Ended::Code(1)),
    },
    Case {
        vars: "BOOT_ORDER=A",
        plays: &[Play {
            words: LIST,
            out: b"B_OK=1\nORDER=B A\n",
            ..SILENT
        }],
        call: Call::PrimarySlot,
        steps: &[(LIST, None)],
        answer: Answer::Slot(Some(2)),
    },
];

fn wrong_rows(alloc: Global) -> [Option<usize>; 4] {
    [
        first_wrong(alloc, &CUSTOM, &ROWS),
        first_wrong(alloc, &NOOP, &NONE_RUN),
        first_wrong(alloc, &NAMELESS, &NO_NAMES),
        first_wrong(alloc, &OTHER, &OTHERS),
    ]
}

#[test]
fn other_boot_loaders(rt: HostRuntime) {
    assert_eq!(rt; wrong_rows(rt.alloc()), [None; 4]);
}

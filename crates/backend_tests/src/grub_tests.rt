use crate::cases::{Answer, Call, Case, Device, Play, SILENT, Step, THREE, TWO, first_wrong};
use std::alloc::Global;

const GRUB: Device = Device {
    boot: "grub\ngrubenv=/env",
    slots: TWO,
    machine: "grub\ngrubenv=/env",
};

const GRUB_OF_THREE: Device = Device {
    slots: THREE,
    ..GRUB
};

const WHOLE: &str = "A_OK=1\nA_TRY=0\nB_OK=1\nB_TRY=0\nORDER=A B";

const LIST: &str = "grub-editenv|/env|list";

const LISTS: Step = (LIST, None);

// A list that is as long as what is kept of it, and one that is a byte longer.
const LONG: Play = Play {
    words: LIST,
    out: b"ORDER=A\n",
    more: 65_528,
    ..SILENT
};

const B_FIRST: &[Step] = &[
    LISTS,
    (
        "grub-editenv|/env|set|B_OK=1|B_TRY=0|ORDER=B A",
        Some("ORDER=B A\nB_OK=1\nB_TRY=0"),
    ),
];

static MARKS: [Case; 11] = [
    Case {
        vars: WHOLE,
        plays: &[],
        call: Call::Bad("B"),
        steps: &[(
            "grub-editenv|/env|set|B_OK=0|B_TRY=0",
            Some("A_OK=1\nA_TRY=0\nB_OK=0\nB_TRY=0\nORDER=A B"),
        )],
        answer: Answer::Done,
    },
    Case {
        vars: "",
        plays: &[],
        call: Call::Bad("A"),
        steps: &[(
            "grub-editenv|/env|set|A_OK=0|A_TRY=0",
            Some("A_OK=0\nA_TRY=0"),
        )],
        answer: Answer::Done,
    },
    Case {
        vars: "B_OK=x\nB_TRY=3",
        plays: &[],
        call: Call::Good("B"),
        steps: &[(
            "grub-editenv|/env|set|B_OK=1|B_TRY=0",
            Some("B_OK=1\nB_TRY=0"),
        )],
        answer: Answer::Done,
    },
    Case {
        vars: WHOLE,
        plays: &[],
        call: Call::Primary("B"),
        steps: &[
            LISTS,
            (
                "grub-editenv|/env|set|B_OK=1|B_TRY=0|ORDER=B A",
                Some("A_OK=1\nA_TRY=0\nB_OK=1\nB_TRY=0\nORDER=B A"),
            ),
        ],
        answer: Answer::Done,
    },
    // without an order
    Case {
        vars: "",
        plays: &[],
        call: Call::Primary("B"),
        steps: B_FIRST,
        answer: Answer::Done,
    },
    // with an empty one
    Case {
        vars: "ORDER= ",
        plays: &[],
        call: Call::Primary("B"),
        steps: B_FIRST,
        answer: Answer::Done,
    },
    // with names that are repeated, and one that no slot has
    Case {
        vars: "ORDER= B A  B\tX X",
        plays: &[],
        call: Call::Primary("A"),
        steps: &[
            LISTS,
            (
                "grub-editenv|/env|set|A_OK=1|A_TRY=0|ORDER=A B X",
                Some("A_OK=1\nA_TRY=0\nORDER=A B X"),
            ),
        ],
        answer: Answer::Done,
    },
    // the last of a repeated variable counts, and other lines do not
    Case {
        vars: "ORDER=A",
        plays: &[Play {
            words: LIST,
            out: b"ORDER=A\nORDER=X A\nORDER",
            ..SILENT
        }],
        call: Call::Primary("B"),
        steps: &[
            LISTS,
            (
                "grub-editenv|/env|set|B_OK=1|B_TRY=0|ORDER=B X A",
                Some("B_OK=1\nB_TRY=0\nORDER=B X A"),
            ),
        ],
        answer: Answer::Done,
    },
    // nothing is printed
    Case {
        vars: "ORDER=X",
        plays: &[Play {
            words: LIST,
            ..SILENT
        }],
        call: Call::Primary("B"),
        steps: B_FIRST,
        answer: Answer::Done,
    },
    Case {
        vars: "",
        plays: &[LONG],
        call: Call::Primary("B"),
        steps: B_FIRST,
        answer: Answer::Done,
    },
    Case {
        vars: "",
        plays: &[Play {
            more: 65_529,
            ..LONG
        }],
        call: Call::Primary("B"),
        steps: &[LISTS],
        answer: Answer::Output(LIST),
    },
];

const READS: Case = Case {
    vars: "",
    plays: &[],
    call: Call::ReadVars,
    steps: &[LISTS],
    answer: Answer::Read(""),
};

const BOOTS: Case = Case {
    vars: "",
    plays: &[],
    call: Call::PrimarySlot,
    steps: &[LISTS],
    answer: Answer::Slot(None),
};

static READINGS: [Case; 11] = [
    READS,
    Case {
        vars: WHOLE,
        answer: Answer::Read(WHOLE),
        ..READS
    },
    Case {
        vars: WHOLE,
        plays: &[Play {
            words: LIST,
            out: b"A_OK=1\nA_OK=0\n=v\nB_OK\nx=y=z",
            ..SILENT
        }],
        answer: Answer::Read("A_OK=0\n=v\nx=y=z"),
        ..READS
    },
    Case {
        plays: &[LONG],
        answer: Answer::Read("ORDER=A"),
        ..READS
    },
    Case {
        plays: &[Play {
            more: 65_529,
            ..LONG
        }],
        answer: Answer::Output(LIST),
        ..READS
    },
    BOOTS,
    Case {
        vars: WHOLE,
        answer: Answer::Slot(Some(0)),
        ..BOOTS
    },
    // what was tried is not good
    Case {
        vars: "A_OK=1\nA_TRY=1\nB_OK=01\nORDER=A B",
        answer: Answer::Slot(Some(2)),
        ..BOOTS
    },
    // nor what is no number; what is none counts as 0
    Case {
        vars: "A_OK=x\nB_OK=1\nB_TRY=x\nORDER=X A\tB",
        answer: Answer::Slot(Some(2)),
        ..BOOTS
    },
    Case {
        vars: "A_OK=1\nB_OK=1\nORDER=",
        ..BOOTS
    },
    // the error output alone is cut
    Case {
        plays: &[Play {
            words: LIST,
            err: 65_537,
            ..SILENT
        }],
        answer: Answer::Output(LIST),
        ..BOOTS
    },
];

// The other names follow in the order of the slots.
static THIRD: [Case; 1] = [Case {
    vars: "ORDER=",
    plays: &[],
    call: Call::Primary("B"),
    steps: &[
        LISTS,
        (
            "grub-editenv|/env|set|B_OK=1|B_TRY=0|ORDER=B A C",
            Some("B_OK=1\nB_TRY=0\nORDER=B A C"),
        ),
    ],
    answer: Answer::Done,
}];

fn wrong_rows(alloc: Global) -> [Option<usize>; 3] {
    [
        first_wrong(alloc, &GRUB, &MARKS),
        first_wrong(alloc, &GRUB, &READINGS),
        first_wrong(alloc, &GRUB_OF_THREE, &THIRD),
    ]
}

#[test]
fn grub(rt: HostRuntime) {
    assert_eq!(rt; wrong_rows(rt.alloc()), [None; 3]);
}

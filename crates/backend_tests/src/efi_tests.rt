use crate::cases::{Answer, Call, Case, Device, Play, SILENT, Step, TWO, first_wrong};
use std::alloc::Global;

const NEXT: Device = Device {
    boot: "efi",
    slots: TWO,
    machine: "efi",
};

const ORDERED: Device = Device {
    boot: "efi\nefi-use-bootnext=false",
    slots: TWO,
    machine: "efi",
};

const WHOLE: &str = "Boot0001=A\nBoot0002=B\nBoot0005=B\nBootNext=0005\nBootOrder=0002,0001,0005";

const LIST: &str = "efibootmgr";

const LISTS: Step = (LIST, None);

// A list that is as long as what is kept of it, and one that is a byte longer.
const LONG: Play = Play {
    words: LIST,
    out: b"BootOrder: 0001\n",
    more: 65_520,
    ..SILENT
};

const BAD: Case = Case {
    vars: WHOLE,
    plays: &[],
    call: Call::Bad("B"),
    steps: &[
        LISTS,
        (
            "efibootmgr|-N",
            Some("Boot0001=A\nBoot0002=B\nBoot0005=B\nBootOrder=0002,0001,0005"),
        ),
        (
            "efibootmgr|-o|0001",
            Some("Boot0001=A\nBoot0002=B\nBoot0005=B\nBootOrder=0001"),
        ),
    ],
    answer: Answer::Done,
};

const UNLISTED: Case = Case {
    vars: "Boot0001=A\nBoot0002=BB\nBoot003=B\nBoot000a=B\nBootOrder=0001,0002",
    plays: &[],
    call: Call::Bad("B"),
    steps: &[LISTS],
    answer: Answer::Unlisted("B"),
};

const NOT_READ: Case = Case {
    steps: &[LISTS],
    answer: Answer::Output(LIST),
    ..BAD
};

static MARKS: [Case; 20] = [
    BAD,
    // no number of the name is in the order, or is the next boot's
    Case {
        vars: "Boot0001=A\nBoot0002=B\nBootNext=0001\nBootOrder=0001",
        steps: &[LISTS],
        ..BAD
    },
    // the order becomes empty
    Case {
        vars: "Boot0001=A\nBoot0002=B\nBootNext=0001\nBootOrder=0002,0002",
        steps: &[
            LISTS,
            (
                "efibootmgr|-O",
                Some("Boot0001=A\nBoot0002=B\nBootNext=0001"),
            ),
        ],
        ..BAD
    },
    Case {
        vars: "Boot0002=B\nBootNext=0002",
        steps: &[LISTS, ("efibootmgr|-N", Some("Boot0002=B"))],
        ..BAD
    },
    UNLISTED,
    Case {
        call: Call::Good("B"),
        ..UNLISTED
    },
    Case {
        call: Call::Primary("B"),
        ..UNLISTED
    },
    // nothing is printed
    Case {
        vars: WHOLE,
        plays: &[Play {
            words: LIST,
            ..SILENT
        }],
        ..UNLISTED
    },
    // too much; a number that is none, though another follows; an order that ends with a comma, or has
    // other marks
    Case {
        plays: &[Play {
            more: 65_521,
            ..LONG
        }],
        ..NOT_READ
    },
    Case {
        plays: &[Play {
            words: LIST,
            out: b"BootNext: 1\nBootNext: 0001\nBoot0002* B\n",
            ..SILENT
        }],
        ..NOT_READ
    },
    Case {
        plays: &[Play {
            words: LIST,
            out: b"BootOrder: 0001,\nBoot0002* B\n",
            ..SILENT
        }],
        call: Call::Good("B"),
        ..NOT_READ
    },
    Case {
        plays: &[Play {
            words: LIST,
            out: b"BootOrder: 0001 0002\nBoot0002* B\n",
            ..SILENT
        }],
        call: Call::Primary("B"),
        ..NOT_READ
    },
    Case {
        call: Call::Good("B"),
        steps: &[
            LISTS,
            (
                "efibootmgr|-o|0002,0001",
                Some("Boot0001=A\nBoot0002=B\nBoot0005=B\nBootNext=0005\nBootOrder=0002,0001"),
            ),
        ],
        ..BAD
    },
    Case {
        vars: "Boot0001=A\nBoot0002=B\nBoot0005=B\nBootOrder=0002,0001",
        call: Call::Good("B"),
        steps: &[LISTS],
        ..BAD
    },
    // without an order
    Case {
        vars: "Boot0005=B",
        call: Call::Good("B"),
        steps: &[
            LISTS,
            ("efibootmgr|-o|0005", Some("Boot0005=B\nBootOrder=0005")),
        ],
        ..BAD
    },
    // a label ends at a tab, and the last of a repeated entry counts
    Case {
        vars: "",
        plays: &[Play {
            words: LIST,
            out: b"BootOrder: 00ab,0001\nBoot0001* B\nBoot00ab  B\tx\nBoot0001* A",
            ..SILENT
        }],
        call: Call::Good("B"),
        steps: &[LISTS],
        ..BAD
    },
    Case {
        vars: "",
        plays: &[Play {
            words: LIST,
            out: b"BootOrder: \nBoot00ab\t\tB\n",
            ..SILENT
        }],
        call: Call::Good("B"),
        steps: &[LISTS, ("efibootmgr|-o|00AB", Some("BootOrder=00AB"))],
        ..BAD
    },
    Case {
        vars: "Boot0001=A\nBoot0002=B\nBoot0005=B\nBootOrder=0001",
        call: Call::Primary("B"),
        steps: &[
            LISTS,
            (
                "efibootmgr|-n|0002",
                Some("Boot0001=A\nBoot0002=B\nBoot0005=B\nBootNext=0002\nBootOrder=0001"),
            ),
        ],
        ..BAD
    },
    Case {
        vars: "Boot0001=A\nBootNext=0001",
        call: Call::Primary("A"),
        steps: &[
            LISTS,
            ("efibootmgr|-n|0001", Some("Boot0001=A\nBootNext=0001")),
        ],
        ..BAD
    },
    Case {
        vars: "Boot0001=A\nBoot0002=B\nBoot0005=B\nBootNext=0005\nBootOrder=0001,0005",
        call: Call::Primary("B"),
        steps: &[
            LISTS,
            (
                "efibootmgr|-n|0002",
                Some("Boot0001=A\nBoot0002=B\nBoot0005=B\nBootNext=0002\nBootOrder=0001,0005"),
            ),
        ],
        ..BAD
    },
];

static BY_ORDER: [Case; 2] = [
    Case {
        call: Call::Primary("B"),
        steps: &[
            LISTS,
            (
                "efibootmgr|-N",
                Some("Boot0001=A\nBoot0002=B\nBoot0005=B\nBootOrder=0002,0001,0005"),
            ),
            (
                "efibootmgr|-o|0002,0001",
                Some("Boot0001=A\nBoot0002=B\nBoot0005=B\nBootOrder=0002,0001"),
            ),
        ],
        ..BAD
    },
    Case {
        vars: "Boot0001=A\nBoot0002=B\nBootOrder=0002,0001",
        call: Call::Primary("B"),
        steps: &[
            LISTS,
            (
                "efibootmgr|-o|0002,0001",
                Some("Boot0001=A\nBoot0002=B\nBootOrder=0002,0001"),
            ),
        ],
        ..BAD
    },
];

const READS: Case = Case {
    vars: "",
    plays: &[],
    call: Call::ReadVars,
    steps: &[LISTS],
    answer: Answer::Read(""),
};

const BOOTS: Case = Case {
    vars: "",
    plays: &[],
    call: Call::PrimarySlot,
    steps: &[LISTS],
    answer: Answer::Slot(None),
};

static READINGS: [Case; 11] = [
    READS,
    Case {
        vars: "Boot0001=A\nBootNext=0005\nBootOrder=0002,0001,0005\nBoot01=B\nx=y",
        answer: Answer::Read("Boot0001=A\nBootNext=0005\nBootOrder=0002,0001,0005"),
        ..READS
    },
    Case {
        plays: &[Play {
            words: LIST,
            out: b"BootCurrent: 0001\nBootNext: 0001\nBootNext: 00ab\nBootOrder: 0001\nBootOrder: 00AB,00cd\nBoot00ab* A\tHD(1)\nBoot0001  B\nBoot0001\t\tC\nBoot01* X\nBoot00AB*Y\nBoot00AB",
            ..SILENT
        }],
        answer: Answer::Read("Boot0001=C\nBoot00AB=A\nBootNext=00AB\nBootOrder=00AB,00CD"),
        ..READS
    },
    Case {
        plays: &[LONG],
        answer: Answer::Read("BootOrder=0001"),
        ..READS
    },
    BOOTS,
    Case {
        vars: WHOLE,
        answer: Answer::Slot(Some(2)),
        ..BOOTS
    },
    // the next boot has no name, or no entry
    Case {
        vars: "Boot0001=A\nBoot0002=B\nBoot0005=C\nBootNext=0005\nBootOrder=0005,0001,0002",
        answer: Answer::Slot(Some(0)),
        ..BOOTS
    },
    Case {
        vars: "Boot0001=A\nBoot0002=B\nBootNext=0009\nBootOrder=0009,0002,0001",
        answer: Answer::Slot(Some(2)),
        ..BOOTS
    },
    Case {
        vars: "Boot0001=A\nBoot0002=B",
        ..BOOTS
    },
    Case {
        vars: "Boot0002=B\nBootOrder=",
        ..BOOTS
    },
    // what stands there is no number
    Case {
        vars: "Boot0001=A\nBootNext=1\nBootOrder=0001",
        answer: Answer::Output(LIST),
        ..BOOTS
    },
];

fn wrong_rows(alloc: Global) -> [Option<usize>; 3] {
    [
        first_wrong(alloc, &NEXT, &MARKS),
        first_wrong(alloc, &ORDERED, &BY_ORDER),
        first_wrong(alloc, &NEXT, &READINGS),
    ]
}

#[test]
fn efi(rt: HostRuntime) {
    assert_eq!(rt; wrong_rows(rt.alloc()), [None; 3]);
}

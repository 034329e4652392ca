use crate::beds::{Case, Told, Wanted, goes_so};
use machine::Ended;
use slot_marks::Action;
use std::alloc::Global;

const TWO: &str = "[system]
compatible=Test
bootloader=grub
grubenv=/env
statusfile=/status
[slot.rootfs.0]
device=/dev/a
bootname=A
[slot.rootfs.1]
device=/dev/b
bootname=B
[slot.data.0]
device=/dev/d
";

const NO_STATUS: &str = "[system]
compatible=Test
bootloader=grub
grubenv=/env
[slot.rootfs.0]
device=/dev/a
bootname=A
[slot.rootfs.1]
device=/dev/b
bootname=B
";

const ONE: &str = "[system]
compatible=Test
bootloader=grub
grubenv=/env
[slot.rootfs.0]
device=/dev/a
bootname=A
[slot.rootfs.1]
device=/dev/b
[slot.other.0]
device=/dev/c
bootname=C
";

const THREE: &str = "[system]
compatible=Test
bootloader=grub
grubenv=/env
[slot.rootfs.0]
device=/dev/a
bootname=A
[slot.rootfs.1]
device=/dev/b
bootname=B
[slot.rootfs.2]
device=/dev/c
bootname=C
";

const EFI: &str = "[system]
compatible=Test
bootloader=efi
[slot.rootfs.0]
device=/dev/a
bootname=A
[slot.rootfs.1]
device=/dev/b
bootname=B
";

pub const ACTIVE_OTHER: Case = Case {
    conf: TWO,
    cmdline: Some(b"quiet rauc.slot=A"),
    status: None,
    now: 1_714_564_800,
    play: None,
    fails: None,
    stop: None,
    given: None,
    action: Action::Active,
    who: "other",
};

pub const LIST: &str = "grub-editenv|/env|list";

pub const B_FIRST: &str = "grub-editenv|/env|list
grub-editenv|/env|set|B_OK=1|B_TRY=0|ORDER=B A";

pub const B_ACTIVATED: &[u8] = b"[slot.rootfs.1]
activated.timestamp=2024-05-01T12:00:00Z
activated.count=1
";

const HAS_BOTH: &[u8] = b"[slot.rootfs.0]
status=ok
[slot.rootfs.1]
installed.count=3
activated.count=4294967294
";

const WITH_BOTH: &[u8] = b"[slot.rootfs.0]
status=ok

[slot.rootfs.1]
installed.count=3
activated.timestamp=2024-05-01T12:00:00Z
activated.count=4294967295
";

const ACTIVATED_OFTEN: &[u8] = b"[slot.rootfs.1]\nactivated.count=4294967295\n";

const INSTALLED_OFTEN: &[u8] = b"[slot.rootfs.1]\ninstalled.count=4294967295\n";

// Why no slot is chosen; then nothing is run.
static CHOICES: [(Case, &str); 9] = [
    (
        Case {
            conf: ONE,
            ..ACTIVE_OTHER
        },
        "no other slot",
    ),
    (
        Case {
            conf: THREE,
            ..ACTIVE_OTHER
        },
        "2 other slots",
    ),
    (
        Case {
            who: "data.0",
            ..ACTIVE_OTHER
        },
        "slot data.0 has no bootname",
    ),
    (
        Case {
            who: "rootfs.7",
            ..ACTIVE_OTHER
        },
        "no such slot: rootfs.7",
    ),
    (
        Case {
            cmdline: None,
            ..ACTIVE_OTHER
        },
        "no such slot: other",
    ),
    (
        Case {
            cmdline: Some(b"rauc.external"),
            who: "booted",
            ..ACTIVE_OTHER
        },
        "no such slot: booted",
    ),
    (
        Case {
            given: Some("x"),
            who: "booted",
            ..ACTIVE_OTHER
        },
        "no such slot: booted",
    ),
    (
        Case {
            given: Some("data.0"),
            who: "booted",
            ..ACTIVE_OTHER
        },
        "slot data.0 has no bootname",
    ),
    (
        Case {
            given: Some("data.0"),
            ..ACTIVE_OTHER
        },
        "no other slot",
    ),
];

static MARKS: [(Case, Wanted); 5] = [
    (
        Case {
            action: Action::Good,
            who: "booted",
            ..ACTIVE_OTHER
        },
        Wanted {
            told: Told::Done(0, "marked slot rootfs.0 as good", false),
            runs: "grub-editenv|/env|set|A_OK=1|A_TRY=0",
            status: None,
        },
    ),
    (
        Case {
            action: Action::Bad,
            who: "rootfs.1",
            cmdline: None,
            status: Some(b"["),
            ..ACTIVE_OTHER
        },
        Wanted {
            told: Told::Done(1, "marked slot rootfs.1 as bad", false),
            runs: "grub-editenv|/env|set|B_OK=0|B_TRY=0",
            status: Some(b"["),
        },
    ),
    (
        Case {
            action: Action::Good,
            given: Some("B"),
            ..ACTIVE_OTHER
        },
        Wanted {
            told: Told::Done(0, "marked slot rootfs.0 as good", false),
            runs: "grub-editenv|/env|set|A_OK=1|A_TRY=0",
            status: None,
        },
    ),
    (
        Case {
            conf: NO_STATUS,
            now: -1,
            ..ACTIVE_OTHER
        },
        Wanted {
            told: Told::Done(1, "activated slot rootfs.1", false),
            runs: B_FIRST,
            status: None,
        },
    ),
    (
        Case {
            conf: EFI,
            action: Action::Bad,
            play: Some(("efibootmgr", Ended::Code(0), b"Boot0001* A\n")),
            ..ACTIVE_OTHER
        },
        Wanted {
            told: Told::Refused("no boot entry B"),
            runs: "efibootmgr",
            status: None,
        },
    ),
];

static ACTIVATIONS: [(Case, Wanted); 9] = [
    (
        ACTIVE_OTHER,
        Wanted {
            told: Told::Done(1, "activated slot rootfs.1", false),
            runs: B_FIRST,
            status: Some(B_ACTIVATED),
        },
    ),
    (
        Case {
            status: Some(HAS_BOTH),
            ..ACTIVE_OTHER
        },
        Wanted {
            told: Told::Done(1, "activated slot rootfs.1", false),
            runs: B_FIRST,
            status: Some(WITH_BOTH),
        },
    ),
    (
        Case {
            status: Some(b"[\n"),
            ..ACTIVE_OTHER
        },
        Wanted {
            told: Told::Done(1, "activated slot rootfs.1", true),
            runs: B_FIRST,
            status: Some(B_ACTIVATED),
        },
    ),
    (
        Case {
            now: -1,
            ..ACTIVE_OTHER
        },
        Wanted {
            told: Told::Refused("clock out of range: -1"),
            runs: "",
            status: None,
        },
    ),
    (
        Case {
            status: Some(ACTIVATED_OFTEN),
            ..ACTIVE_OTHER
        },
        Wanted {
            told: Told::Refused("count of rootfs.1 is at its end"),
            runs: "",
            status: Some(ACTIVATED_OFTEN),
        },
    ),
    (
        Case {
            status: Some(INSTALLED_OFTEN),
            ..ACTIVE_OTHER
        },
        Wanted {
            told: Told::Refused("count of rootfs.1 is at its end"),
            runs: "",
            status: Some(INSTALLED_OFTEN),
        },
    ),
    (
        Case {
            play: Some((LIST, Ended::Code(1), b"")),
            ..ACTIVE_OTHER
        },
        Wanted {
            told: Told::Refused("grub-editenv /env list failed: status 1"),
            runs: LIST,
            status: None,
        },
    ),
    (
        Case {
            play: Some((LIST, Ended::Signal, b"")),
            ..ACTIVE_OTHER
        },
        Wanted {
            told: Told::Refused("grub-editenv /env list failed: signal"),
            runs: LIST,
            status: None,
        },
    ),
    (
        Case {
            play: Some((LIST, Ended::Code(0), b"\xff")),
            ..ACTIVE_OTHER
        },
        Wanted {
            told: Told::Refused("grub-editenv /env list: bad output"),
            runs: LIST,
            status: None,
        },
    ),
];

fn first_wrong(alloc: Global, cases: &[(Case, Wanted)]) -> Option<usize> {
    cases
        .iter()
        .position(|(case, wanted)| !goes_so(alloc, case, wanted))
}

fn is_refused(alloc: Global, case: &Case, cause: &'static str) -> bool {
    let wanted = Wanted {
        told: Told::Refused(cause),
        runs: "",
        status: None,
    };
    goes_so(alloc, case, &wanted)
}

fn first_unrefused(alloc: Global) -> Option<usize> {
    CHOICES
        .iter()
        .position(|(case, cause)| !is_refused(alloc, case, cause))
}

fn wrong_rows(alloc: Global) -> [Option<usize>; 3] {
    [
        first_unrefused(alloc),
        first_wrong(alloc, &MARKS),
        first_wrong(alloc, &ACTIVATIONS),
    ]
}

#[test]
fn marks(rt: HostRuntime) {
    assert_eq!(rt; wrong_rows(rt.alloc()), [None; 3]);
}

use boot_model::{BootKind, Vars};
use boot_state::{good_of, primary_of};
use std::alloc::Global;
use updater_text::{Items, NoMemory, Text};

// Variables, one a line, of which the last of a name counts; whether `A` is good, and `B`; and which
// of the two, in this order, is primary.
type Row = (&'static str, bool, bool, Option<usize>);

static GRUB: [Row; 13] = [
    ("", false, false, None),
    (
        "A_OK=1\nA_TRY=0\nB_OK=1\nB_TRY=0\nORDER=B A",
        true,
        true,
        Some(1),
    ),
    ("A_OK=1\nB_OK=1\nORDER=A B", true, true, Some(0)),
    ("A_OK=1\nA_TRY=\nB_OK=\nORDER=B A", true, false, Some(0)),
    (
        "A_OK=01\nA_TRY=00\nB_OK=1\nB_TRY=1\nORDER=\tB  A\t",
        true,
        false,
        Some(0),
    ),
    ("A_OK=x\nB_OK=2\nORDER=A B", false, false, None),
    (
        "A_OK=1\nA_TRY=x\nB_OK=1\nORDER=C C AB B A",
        true,
        true,
        Some(1),
    ),
    ("A_OK=1\nB_OK=1", true, true, None),
    ("A_OK=1\nB_OK=1\nORDER= \t ", true, true, None),
    (
        "A_OK=1\nA_OK=0\nB_OK=0\nB_OK=1\nORDER=A\nORDER=A B B",
        false,
        true,
        Some(1),
    ),
    ("A_OK= 1\nB_OK=1\nORDER=A,B", false, true, None),
    ("A_OK=3\nAA_OK=1\nB_OK=1\nORDER=A B", false, true, Some(1)),
    (
        "a_OK=1\nXA_OK=1\nA_OKX=1\n_OK=1\nORDER=A",
        false,
        false,
        None,
    ),
];

static UBOOT: [Row; 12] = [
    ("", false, false, None),
    (
        "BOOT_ORDER=A B\nBOOT_A_LEFT=3\nBOOT_B_LEFT=3",
        true,
        true,
        Some(0),
    ),
    (
        "BOOT_ORDER=B\tA\nBOOT_A_LEFT=3\nBOOT_B_LEFT=0",
        true,
        false,
        Some(0),
    ),
    (
        "BOOT_ORDER=B A\nBOOT_A_LEFT=00\nBOOT_B_LEFT=x",
        false,
        false,
        None,
    ),
    ("BOOT_ORDER=B A\nBOOT_A_LEFT=1", true, false, Some(0)),
    (
        "BOOT_ORDER=A\nBOOT_A_LEFT=\nBOOT_B_LEFT=9",
        false,
        false,
        None,
    ),
    (
        "BOOT_ORDER= B  B A\nBOOT_A_LEFT=1\nBOOT_B_LEFT=01",
        true,
        true,
        Some(1),
    ),
    (
        "BOOT_ORDER=\nBOOT_A_LEFT=1\nBOOT_B_LEFT=1",
        false,
        false,
        None,
    ),
    ("BOOT_A_LEFT=1\nBOOT_B_LEFT=1", false, false, None),
    (
        "BOOT_ORDER=C BA B\nBOOT_B_LEFT=2\nBOOT_C_LEFT=1",
        false,
        true,
        Some(1),
    ),
    (
        "BOOT_ORDER=A B\nBOOT_A_LEFT=3\nBOOT_A_LEFT=0\nBOOT_B_LEFT=-1",
        false,
        false,
        None,
    ),
    (
        "BOOT_ORDER=A B\nBOOT_A_LEFT=18446744073709551616\nBOOT_B_LEFT=18446744073709551615",
        false,
        true,
        Some(1),
    ),
];

static BAREBOX: [Row; 9] = [
    ("", false, false, None),
    (
        "bootstate.A.priority=20\nbootstate.A.remaining_attempts=3
bootstate.B.priority=10\nbootstate.B.remaining_attempts=3",
        true,
        true,
        Some(0),
    ),
    (
        "bootstate.B.priority=10\nbootstate.B.remaining_attempts=3
bootstate.A.priority=10\nbootstate.A.remaining_attempts=1",
        true,
        true,
        Some(0),
    ),
    (
        "bootstate.A.priority=9\nbootstate.A.remaining_attempts=1
bootstate.B.priority=10\nbootstate.B.remaining_attempts=1",
        true,
        true,
        Some(1),
    ),
    (
        "bootstate.A.priority=20\nbootstate.A.remaining_attempts=0
bootstate.B.priority=10\nbootstate.B.remaining_attempts=1",
        false,
        true,
        Some(1),
    ),
    (
        "bootstate.A.priority=0\nbootstate.A.remaining_attempts=3
bootstate.B.priority=00\nbootstate.B.remaining_attempts=3",
        false,
        false,
        None,
    ),
    (
        "bootstate.A.priority=x\nbootstate.A.remaining_attempts=3\nbootstate.B.priority=1",
        false,
        false,
        None,
    ),
    (
        "bootstate.A.priority=\nbootstate.A.remaining_attempts=1
bootstate.B.priority=3\nbootstate.B.remaining_attempts=03",
        false,
        true,
        Some(1),
    ),
    (
        "bootstate.A.priority=30\nbootstate.A.priority=1\nbootstate.A.remaining_attempts=1
bootstate.B.priority=2\nbootstate.B.remaining_attempts=1",
        true,
        true,
        Some(1),
    ),
];

static EFI: [Row; 14] = [
    ("", false, false, None),
    (
        "BootOrder=0001,0002\nBoot0001=A\nBoot0002=B",
        true,
        true,
        Some(0),
    ),
    (
        "BootNext=0002\nBootOrder=0001,0002\nBoot0001=A\nBoot0002=B",
        true,
        true,
        Some(1),
    ),
    (
        "BootOrder=0003,0002\nBoot0001=A\nBoot0003=A\nBoot0002=B",
        true,
        true,
        Some(0),
    ),
    (
        "BootNext=0009\nBootOrder=0002,0001\nBoot0001=A\nBoot0002=B\nBoot0009=C",
        true,
        true,
        Some(1),
    ),
    (
        "BootNext=0007\nBootOrder=0001\nBoot0001=A\nBoot0002=B",
        true,
        false,
        Some(0),
    ),
    (
        "BootOrder=000a,000B\nBoot000a=A\nBoot000B=B",
        false,
        true,
        Some(1),
    ),
    (
        "BootNext=\nBootOrder=\nBoot0001=A\nBoot=B",
        false,
        false,
        None,
    ),
    (
        "BootOrder=0005,,0001,0001\nBoot0001=B",
        false,
        true,
        Some(1),
    ),
    (
        "BootNext=0001\nBoot0001=A\nBoot0002=B",
        false,
        false,
        Some(0),
    ),
    (
        "BootOrder=1,00001,0x01,0001 \nBoot0001=A\nBoot1=A\nBoot00001=B",
        false,
        false,
        None,
    ),
    (
        "BootOrder=FFFF,0001\nBootFFFF=B\nBoot0001=A\nBoot0001=C",
        false,
        true,
        Some(1),
    ),
    (
        "BootOrder=0001 0002\nBoot0001=A\nBoot0002=B",
        false,
        false,
        None,
    ),
    (
        "BootNext=0001\nBootNext=0003\nBootOrder=0002\nBoot0001=A\nBoot0003=B",
        false,
        false,
        Some(1),
    ),
];

static CUSTOM: [Row; 10] = [
    ("", true, true, None),
    ("primary=B", true, true, Some(1)),
    ("primary=A\nstate.A=bad", false, true, None),
    ("primary=A\nstate.A=good\nstate.B=bad", true, false, Some(0)),
    ("primary=C", true, true, None),
    ("primary=\nstate.A=", true, true, None),
    (
        "primary=A\nprimary=B\nstate.B=bad\nstate.B=good",
        true,
        true,
        Some(1),
    ),
    ("primary=A B\nstate.A=BAD\nstate.B=bad ", true, true, None),
    ("primary= A", true, true, None),
    ("primary=B\nstate.=bad\nstate.BA=bad", true, true, Some(1)),
];

static NOOP: [Row; 2] = [
    ("", true, true, None),
    (
        "primary=A\nstate.A=bad\nA_OK=1\nORDER=A\nBOOT_ORDER=A\nBOOT_A_LEFT=1",
        true,
        true,
        None,
    ),
];

/// Variables, one a line.
pub fn vars_of(alloc: Global, text: &str) -> Result<Vars, NoMemory> {
    let mut vars = Vars::new(alloc);
    for line in text.split('\n') {
        if let Some((name, value)) = line.split_once('=') {
            vars.set(name, value)?;
        }
    }
    Ok(vars)
}

fn names_of(alloc: Global) -> Result<Items<Text>, NoMemory> {
    let mut names = Items::new(alloc);
    names.push(Text::new(alloc, "A")?)?;
    names.push(Text::new(alloc, "B")?)?;
    Ok(names)
}

fn holds(alloc: Global, kind: &BootKind, row: &Row) -> Result<bool, NoMemory> {
    let (text, first, second, primary) = *row;
    let vars = vars_of(alloc, text)?;
    let names = names_of(alloc)?;
    let names = names.as_slice();
    Ok(
        good_of(kind, &vars, names, "A") == first
            && good_of(kind, &vars, names, "B") == second
            && primary_of(kind, &vars, names) == primary,
    )
}

// The first row that does not hold.
fn first_wrong(alloc: Global, kind: &BootKind, rows: &[Row]) -> Option<usize> {
    rows.iter()
        .position(|row| !matches!(holds(alloc, kind, row), Ok(true)))
}

// The words of the kinds of boot loaders.
static WORDS: [&str; 6] = ["grub", "uboot", "barebox", "efi", "custom", "noop"];

fn rows_of(word: &str) -> &'static [Row] {
    match word {
        "grub" => &GRUB,
        "uboot" => &UBOOT,
        "barebox" => &BAREBOX,
        "efi" => &EFI,
        "custom" => &CUSTOM,
        _ => &NOOP,
    }
}

fn kind_of(alloc: Global, word: &str) -> BootKind {
    match word {
        "grub" => BootKind::Grub {
            file: Text::empty(alloc),
        },
        "uboot" => BootKind::Uboot {
            attempts: 3,
            primary_attempts: 3,
        },
        "barebox" => BootKind::Barebox {
            state: None,
            attempts: 3,
            primary_attempts: 3,
        },
        "efi" => BootKind::Efi { use_next: true },
        "custom" => BootKind::Custom {
            program: Text::empty(alloc),
        },
        _ => BootKind::Noop,
    }
}

// The first row of a kind that does not hold.
fn wrong_row(alloc: Global, word: &str) -> Option<usize> {
    first_wrong(alloc, &kind_of(alloc, word), rows_of(word))
}

#[test]
fn tells_what_is_booted(rt: HostRuntime) {
    for word in WORDS {
        assert_eq!(rt; wrong_row(rt.alloc(), word), None, "{word}");
    }
}

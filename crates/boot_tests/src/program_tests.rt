use boot_model::{BootKind, Vars};
use boot_programs::{ProgramEnd, program};
use std::alloc::Global;
use std::test::Fail;
use updater_text::{Items, NoMemory, Text};

type Words = &'static [&'static str];

type Settings = &'static [(&'static str, &'static str)];

// The variables, the words of a program that only reads them, and what it prints.
type Print = (Settings, Words, &'static str);

// The words of a program that prints nothing, and the variables after it.
type Change = (Words, Settings);

static GRUB: [(&str, &str); 3] = [("A_OK", "1"), ("A_TRY", "0"), ("ORDER", "A B")];

static GRUB_PRINTS: [Print; 3] = [
    (
        &[("A_OK", "1"), ("A_TRY", "0"), ("ORDER", "A B")],
        &["grub-editenv", "/boot/grubenv", "list"],
        "A_OK=1\nA_TRY=0\nORDER=A B\n",
    ),
    (&[], &["grub-editenv", "/boot/grubenv", "list"], ""),
    (
        &[("saved", ""), ("", "x"), ("k", "a=b")],
        &["grub-editenv", "/boot/grubenv", "list"],
        "=x\nk=a=b\nsaved=\n",
    ),
];

static GRUB_CHANGES: [Change; 5] = [
    (
        &["grub-editenv", "/boot/grubenv", "set", "A_OK=0"],
        &[("A_OK", "0"), ("A_TRY", "0"), ("ORDER", "A B")],
    ),
    (
        &[
            "grub-editenv",
            "/boot/grubenv",
            "set",
            "B=1",
            "ORDER=B",
            "B=2",
        ],
        &[("A_OK", "1"), ("A_TRY", "0"), ("ORDER", "B"), ("B", "2")],
    ),
    (
        &["grub-editenv", "/boot/grubenv", "set", "A_TRY=a=b"],
        &[("A_OK", "1"), ("A_TRY", "a=b"), ("ORDER", "A B")],
    ),
    (
        &["grub-editenv", "/boot/grubenv", "set", "ORDER="],
        &[("A_OK", "1"), ("A_TRY", "0"), ("ORDER", "")],
    ),
    (
        &["grub-editenv", "/boot/grubenv", "set", "=v"],
        &[("A_OK", "1"), ("A_TRY", "0"), ("ORDER", "A B"), ("", "v")],
    ),
];

static GRUB_REFUSED: [Words; 14] = [
    &[],
    &["grub-editenv"],
    &["grub-editenv", "/boot/grubenv"],
    &["grub-editenv", "list"],
    &["grub-editenv", "/boot/grubenv", "list", "A_OK"],
    &["grub-editenv", "/boot/grubenv", "set"],
    &["grub-editenv", "/boot/grubenv", "set", "A_OK"],
    &["grub-editenv", "/boot/grubenv", "set", "A_OK=0", "A_TRY"],
    &["grub-editenv", "/boot/grubenv", "unset", "A_OK"],
    &["grub-editenv", "/boot/other", "list"],
    &["grub-editenv", "/boot/other", "set", "A_OK=0"],
    &["/bin/grub-editenv", "/boot/grubenv", "list"],
    &["fw_printenv", "A_OK"],
    &["fw_setenv", "A_OK", "0"],
];

static UBOOT: [(&str, &str); 2] = [("BOOT_A_LEFT", "3"), ("BOOT_ORDER", "A B")];

static UBOOT_PRINTS: [Print; 4] = [
    (
        &[("BOOT_A_LEFT", "3"), ("BOOT_ORDER", "A B")],
        &["fw_printenv", "BOOT_ORDER"],
        "BOOT_ORDER=A B\n",
    ),
    (&[("k", "a=b")], &["fw_printenv", "k"], "k=a=b\n"),
    (&[("k", "")], &["fw_printenv", "k"], "k=\n"),
    (&[("k", "v"), ("", "x")], &["fw_printenv", ""], "=x\n"),
];

static UBOOT_CHANGES: [Change; 6] = [
    (
        &["fw_setenv", "BOOT_A_LEFT", "0"],
        &[("BOOT_A_LEFT", "0"), ("BOOT_ORDER", "A B")],
    ),
    (
        &["fw_setenv", "k", "a=b"],
        &[("BOOT_A_LEFT", "3"), ("BOOT_ORDER", "A B"), ("k", "a=b")],
    ),
    (&["fw_setenv", "BOOT_ORDER", ""], &[("BOOT_A_LEFT", "3")]),
    (
        &["fw_setenv", "k", ""],
        &[("BOOT_A_LEFT", "3"), ("BOOT_ORDER", "A B")],
    ),
    (
        &["fw_setenv", "", "v"],
        &[("BOOT_A_LEFT", "3"), ("BOOT_ORDER", "A B"), ("", "v")],
    ),
    (
        &["fw_setenv", "k=a", "v"],
        &[("BOOT_A_LEFT", "3"), ("BOOT_ORDER", "A B"), ("k=a", "v")],
    ),
];

static UBOOT_REFUSED: [Words; 11] = [
    &[],
    &["fw_printenv"],
    &["fw_printenv", "BOOT_B_LEFT"],
    &["fw_printenv", "BOOT_ORDER", "BOOT_A_LEFT"],
    &["fw_printenv", "-n", "BOOT_ORDER"],
    &["fw_setenv"],
    &["fw_setenv", "BOOT_ORDER"],
    &["fw_setenv", "BOOT_ORDER", "A", "B"],
    &["BOOT_ORDER"],
    &["barebox-state", "-g", "BOOT_ORDER"],
    &["grub-editenv", "/boot/grubenv", "list"],
];

static BAREBOX: [(&str, &str); 2] = [("A.priority", "20"), ("A.remaining_attempts", "3")];

static BAREBOX_PRINTS: [Print; 6] = [
    (
        &[("A.priority", "20"), ("A.remaining_attempts", "3")],
        &["barebox-state", "-g", "A.priority"],
        "20\n",
    ),
    (
        &[("A.priority", "20"), ("A.remaining_attempts", "3")],
        &[
            "barebox-state",
            "-g",
            "B",
            "-g",
            "A.remaining_attempts",
            "-g",
            "A.priority",
        ],
        "0\n3\n20\n",
    ),
    (
        &[("k", "20")],
        &["barebox-state", "-n", "state", "-g", "k"],
        "20\n",
    ),
    (
        &[("k", "20")],
        &["barebox-state", "-n", "-g", "-g", "k"],
        "20\n",
    ),
    (&[("k", "")], &["barebox-state", "-g", "k"], "\n"),
    (&[], &["barebox-state", "-g", "-s"], "0\n"),
];

static BAREBOX_CHANGES: [Change; 6] = [
    (
        &["barebox-state", "-s", "A.priority=10"],
        &[("A.priority", "10"), ("A.remaining_attempts", "3")],
    ),
    (
        &[
            "barebox-state",
            "-s",
            "B=5",
            "-s",
            "A.priority=0",
            "-s",
            "B=6",
        ],
        &[
            ("A.priority", "0"),
            ("A.remaining_attempts", "3"),
            ("B", "6"),
        ],
    ),
    (
        &["barebox-state", "-n", "state", "-s", "k=v"],
        &[
            ("A.priority", "20"),
            ("A.remaining_attempts", "3"),
            ("k", "v"),
        ],
    ),
    (
        &["barebox-state", "-s", "k=a=b"],
        &[
            ("A.priority", "20"),
            ("A.remaining_attempts", "3"),
            ("k", "a=b"),
        ],
    ),
    (
        &["barebox-state", "-s", "k="],
        &[
            ("A.priority", "20"),
            ("A.remaining_attempts", "3"),
            ("k", ""),
        ],
    ),
    (
        &["barebox-state", "-s", "=v"],
        &[
            ("A.priority", "20"),
            ("A.remaining_attempts", "3"),
            ("", "v"),
        ],
    ),
];

static BAREBOX_REFUSED: [Words; 18] = [
    &[],
    &["barebox-state"],
    &["barebox-state", "-g"],
    &["barebox-state", "-s"],
    &["barebox-state", "-n"],
    &["barebox-state", "-n", "state"],
    &["barebox-state", "-n", "state", "-g"],
    &["barebox-state", "-n", "a", "-n", "b", "-g", "A.priority"],
    &["barebox-state", "-g", "A.priority", "-n", "state"],
    &["barebox-state", "-g", "A.priority", "-g"],
    &["barebox-state", "-g", "A.priority", "A.remaining_attempts"],
    &["barebox-state", "-g", "A.priority", "-s", "A.priority=1"],
    &["barebox-state", "-s", "A.priority"],
    &["barebox-state", "-s", "A.priority=1", "-s", "B.priority"],
    &["barebox-state", "-s", "A.priority=1", "-g", "A.priority"],
    &["barebox-state", "A.priority"],
    &["barebox-state", "-d", "A.priority"],
    &["efibootmgr"],
];

static EFI: [(&str, &str); 3] = [
    ("Boot0001", "A"),
    ("BootNext", "0001"),
    ("BootOrder", "0001"),
];

static EFI_PRINTS: [Print; 4] = [
    (
        &[
            ("BootOrder", "1,A"),
            ("BootNext", "A"),
            ("Boot00A0", "B 1"),
            ("Boot0001", "A"),
        ],
        &["efibootmgr"],
        "BootNext: A\nBootOrder: 1,A\nBoot0001* A\nBoot00A0* B 1\n",
    ),
    (&[], &["efibootmgr"], ""),
    (
        &[
            ("BootOrder", ""),
            ("BootF09A", ""),
            ("Boot000f", "x"),
            ("Boot000G", "x"),
        ],
        &["efibootmgr"],
        "BootOrder: \nBootF09A* \n",
    ),
    (
        &[
            ("BootNext", "0"),
            ("Boot001", "x"),
            ("Boot00011", "x"),
            ("boot0001", "x"),
        ],
        &["efibootmgr"],
        "BootNext: 0\n",
    ),
];

static EFI_CHANGES: [Change; 5] = [
    (
        &["efibootmgr", "-n", "0002"],
        &[
            ("Boot0001", "A"),
            ("BootNext", "0002"),
            ("BootOrder", "0001"),
        ],
    ),
    (
        &["efibootmgr", "-N"],
        &[("Boot0001", "A"), ("BootOrder", "0001")],
    ),
    (
        &["efibootmgr", "-o", "0002,0001"],
        &[
            ("Boot0001", "A"),
            ("BootNext", "0001"),
            ("BootOrder", "0002,0001"),
        ],
    ),
    (
        &["efibootmgr", "-o", ""],
        &[("Boot0001", "A"), ("BootNext", "0001"), ("BootOrder", "")],
    ),
    (
        &["efibootmgr", "-O"],
        &[("Boot0001", "A"), ("BootNext", "0001")],
    ),
];

static EFI_REFUSED: [Words; 11] = [
    &[],
    &["efibootmgr", "-n"],
    &["efibootmgr", "-o"],
    &["efibootmgr", "-N", "0001"],
    &["efibootmgr", "-O", "0001"],
    &["efibootmgr", "-n", "0001", "-N"],
    &["efibootmgr", "-v"],
    &["efibootmgr", "-x", "0001"],
    &["efibootmgr", ""],
    &["Boot0001"],
    &["barebox-state", "-g", "BootNext"],
];

static CUSTOM: [(&str, &str); 2] = [("primary", "A"), ("state.B", "bad")];

static CUSTOM_PRINTS: [Print; 7] = [
    (
        &[("primary", "A"), ("state.B", "bad")],
        &["/sbin/backend", "get-primary"],
        "A\n",
    ),
    (&[], &["/sbin/backend", "get-primary"], "\n"),
    (
        &[("primary", "B"), ("state.B", "bad")],
        &["/sbin/backend", "get-primary"],
        "\n",
    ),
    (
        &[("primary", "B"), ("state.B", "worse")],
        &["/sbin/backend", "get-primary"],
        "B\n",
    ),
    (
        &[("primary", "A"), ("state.B", "bad")],
        &["/sbin/backend", "get-state", "A"],
        "good\n",
    ),
    (
        &[("primary", "A"), ("state.B", "bad")],
        &["/sbin/backend", "get-state", "B"],
        "bad\n",
    ),
    (&[("state.", "")], &["/sbin/backend", "get-state", ""], "\n"),
];

static CUSTOM_CHANGES: [Change; 6] = [
    (
        &["/sbin/backend", "set-state", "A", "bad"],
        &[("primary", "A"), ("state.A", "bad"), ("state.B", "bad")],
    ),
    (
        &["/sbin/backend", "set-state", "B", "a=b"],
        &[("primary", "A"), ("state.B", "a=b")],
    ),
    (
        &["/sbin/backend", "set-state", "B", ""],
        &[("primary", "A"), ("state.B", "")],
    ),
    (
        &["/sbin/backend", "set-primary", "B"],
        &[("primary", "B"), ("state.B", "good")],
    ),
    (
        &["/sbin/backend", "set-primary", "get-state"],
        &[
            ("primary", "get-state"),
            ("state.B", "bad"),
            ("state.get-state", "good"),
        ],
    ),
    (
        &["/sbin/backend", "set-primary", ""],
        &[("primary", ""), ("state.B", "bad"), ("state.", "good")],
    ),
];

static CUSTOM_REFUSED: [Words; 13] = [
    &[],
    &["/sbin/backend"],
    &["/sbin/backend", "get-primary", "A"],
    &["/sbin/backend", "get-state"],
    &["/sbin/backend", "get-state", "A", "B"],
    &["/sbin/backend", "set-state", "A"],
    &["/sbin/backend", "set-state", "A", "bad", "B"],
    &["/sbin/backend", "set-primary"],
    &["/sbin/backend", "set-primary", "A", "B"],
    &["/sbin/backend", "get-boot"],
    &["/sbin/other", "get-primary"],
    &["get-primary"],
    &["fw_printenv", "primary"],
];

static NOOP_REFUSED: [Words; 5] = [
    &[],
    &["fw_printenv", "primary"],
    &["efibootmgr"],
    &["", "get-primary"],
    &["/sbin/backend", "get-primary"],
];

/// These words, owned.
pub fn words_of(alloc: Global, words: &[&str]) -> Result<Items<Text>, NoMemory> {
    let mut texts = Items::new(alloc);
    for word in words {
        let text = Text::new(alloc, word)?;
        texts.push(text)?;
    }
    Ok(texts)
}

fn vars_of(alloc: Global, settings: &[(&str, &str)]) -> Result<Vars, NoMemory> {
    let mut vars = Vars::new(alloc);
    for (name, value) in settings {
        vars.set(name, value)?;
    }
    Ok(vars)
}

// Whether these are the variables.
fn are_vars(vars: &Vars, settings: &[(&str, &str)]) -> bool {
    for (name, value) in settings {
        if vars.get(name).is_none_or(|found| found != *value) {
            return false;
        }
    }
    vars.len() == settings.len()
}

fn end_of(
    alloc: Global,
    kind: &BootKind,
    argv: &[&str],
    before: &[(&str, &str)],
) -> Result<ProgramEnd, NoMemory> {
    let argv = words_of(alloc, argv)?;
    let before = vars_of(alloc, before)?;
    program(alloc, kind, argv.as_slice(), &before)
}

// Whether a program with these words ends with this code, prints this and leaves these variables.
fn ends(
    alloc: Global,
    kind: &BootKind,
    (before, argv): (&[(&str, &str)], &[&str]),
    (code, out, after): (u8, &str, &[(&str, &str)]),
) -> bool {
    match end_of(alloc, kind, argv, before) {
        Ok(end) => {
            end.code == code && end.out.as_slice() == out.as_bytes() && are_vars(&end.vars, after)
        }
        Err(_) => false,
    }
}

// The first row of each table, counted from 0, that does not hold. The changes and the refusals begin
// with these variables.
fn wrong_rows(
    alloc: Global,
    kind: &BootKind,
    before: &[(&str, &str)],
    (prints, changes, refusals): (&[Print], &[Change], &[Words]),
) -> [Option<usize>; 3] {
    let print = prints.iter().position(|(vars, argv, out)| !ends(
        alloc,
        kind,
        (vars, argv),
        (0, out, vars),
    ));
    let change = changes.iter().position(|(argv, after)| !ends(
        alloc,
        kind,
        (before, argv),
        (0, "", after),
    ));
    let refusal = refusals
        .iter()
        .position(|argv| !ends(alloc, kind, (before, argv), (1, "", before)));
    [print, change, refusal]
}

#[test]
fn grub(rt: HostRuntime) -> Result<(), Fail> {
    let alloc = rt.alloc();
    let file = Text::new(alloc, "/boot/grubenv")?;
    let kind = BootKind::Grub { file };
    let rows = (
        GRUB_PRINTS.as_slice(),
        GRUB_CHANGES.as_slice(),
        GRUB_REFUSED.as_slice(),
    );
    assert_eq!(rt; wrong_rows(alloc, &kind, &GRUB, rows), [None; 3]);
    Ok(())
}

#[test]
fn uboot(rt: HostRuntime) {
    let alloc = rt.alloc();
    let kind = BootKind::Uboot {
        attempts: 3,
        primary_attempts: 3,
    };
    let rows = (
        UBOOT_PRINTS.as_slice(),
        UBOOT_CHANGES.as_slice(),
        UBOOT_REFUSED.as_slice(),
    );
    assert_eq!(rt; wrong_rows(alloc, &kind, &UBOOT, rows), [None; 3]);
}

#[test]
fn barebox(rt: HostRuntime) {
    let alloc = rt.alloc();
    let kind = BootKind::Barebox {
        state: None,
        attempts: 3,
        primary_attempts: 3,
    };
    let rows = (
        BAREBOX_PRINTS.as_slice(),
        BAREBOX_CHANGES.as_slice(),
        BAREBOX_REFUSED.as_slice(),
    );
    assert_eq!(rt; wrong_rows(alloc, &kind, &BAREBOX, rows), [None; 3]);
}

#[test]
fn efi(rt: HostRuntime) {
    let alloc = rt.alloc();
    let kind = BootKind::Efi { use_next: true };
    let rows = (
        EFI_PRINTS.as_slice(),
        EFI_CHANGES.as_slice(),
        EFI_REFUSED.as_slice(),
    );
    assert_eq!(rt; wrong_rows(alloc, &kind, &EFI, rows), [None; 3]);
}

#[test]
fn custom(rt: HostRuntime) -> Result<(), Fail> {
    let alloc = rt.alloc();
    let program = Text::new(alloc, "/sbin/backend")?;
    let kind = BootKind::Custom { program };
    let rows = (
        CUSTOM_PRINTS.as_slice(),
        CUSTOM_CHANGES.as_slice(),
        CUSTOM_REFUSED.as_slice(),
    );
    assert_eq!(rt; wrong_rows(alloc, &kind, &CUSTOM, rows), [None; 3]);
    Ok(())
}

#[test]
fn noop(rt: HostRuntime) {
    let alloc = rt.alloc();
    let rows = ([].as_slice(), [].as_slice(), NOOP_REFUSED.as_slice());
    assert_eq!(rt;
        wrong_rows(alloc, &BootKind::Noop, &CUSTOM, rows),
        [None; 3]
    );
}

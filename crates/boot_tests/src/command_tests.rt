ghost use Rattle.boot_commands.specs.Plans.{HasDigits};

use crate::program_tests::words_of;
use crate::state_tests::vars_of;
use boot_commands::{Command, Mark, arguments_of, looks_of, plan_of, program_of, readings_of};
use boot_model::BootKind;
use std::alloc::Global;
use std::test::Fail;
use updater_text::{Items, NoMemory, Text};

// Variables, one a line; the mark and the name of what is marked; and the commands that are then
// written, one a line, with a bar between words. None where there is no such name.
type Plan = (&'static str, Mark, &'static str, Option<&'static str>);

// The names of a configuration; what is read before a mark as bad, as good and as primary; and what
// reads everything.
type Reads = (&'static [&'static str], [&'static str; 3], &'static str);

static NAMES: [&str; 3] = ["A", "B", "C"];

static GRUB: [Plan; 11] = [
    (
        "A_OK=1",
        Mark::Bad,
        "A",
        Some("grub-editenv|/boot/grubenv|set|A_OK=0|A_TRY=0\n"),
    ),
    (
        "",
        Mark::Good,
        "B",
        Some("grub-editenv|/boot/grubenv|set|B_OK=1|B_TRY=0\n"),
    ),
    (
        "",
        Mark::Primary,
        "B",
        Some("grub-editenv|/boot/grubenv|set|B_OK=1|B_TRY=0|ORDER=B A C\n"),
    ),
    (
        "ORDER=",
        Mark::Primary,
        "A",
        Some("grub-editenv|/boot/grubenv|set|A_OK=1|A_TRY=0|ORDER=A B C\n"),
    ),
    (
        "ORDER= \t ",
        Mark::Primary,
        "C",
        Some("grub-editenv|/boot/grubenv|set|C_OK=1|C_TRY=0|ORDER=C A B\n"),
    ),
    (
        "ORDER=B C B A C",
        Mark::Primary,
        "A",
        Some("grub-editenv|/boot/grubenv|set|A_OK=1|A_TRY=0|ORDER=A B C\n"),
    ),
    (
        "ORDER=C\tB",
        Mark::Primary,
        "C",
        Some("grub-editenv|/boot/grubenv|set|C_OK=1|C_TRY=0|ORDER=C B\n"),
    ),
    (
        "ORDER=X  B\tX Y",
        Mark::Primary,
        "A",
        Some("grub-editenv|/boot/grubenv|set|A_OK=1|A_TRY=0|ORDER=A X B Y\n"),
    ),
    (
        "ORDER=A A",
        Mark::Primary,
        "A",
        Some("grub-editenv|/boot/grubenv|set|A_OK=1|A_TRY=0|ORDER=A\n"),
    ),
    (
        "ORDER=A,B",
        Mark::Primary,
        "B",
        Some("grub-editenv|/boot/grubenv|set|B_OK=1|B_TRY=0|ORDER=B A,B\n"),
    ),
    (
        "",
        Mark::Primary,
        "D",
        Some("grub-editenv|/boot/grubenv|set|D_OK=1|D_TRY=0|ORDER=D A B C\n"),
    ),
];

static GRUB_READS: Reads = (
    &["A", "B", "C"],
    ["", "", "grub-editenv|/boot/grubenv|list\n"],
    "grub-editenv|/boot/grubenv|list\n",
);

static UBOOT: [Plan; 15] = [
    (
        "BOOT_ORDER=A B",
        Mark::Bad,
        "A",
        Some("fw_setenv|BOOT_A_LEFT|0\nfw_setenv|BOOT_ORDER|B\n"),
    ),
    (
        "BOOT_ORDER=B\tA  B AB A",
        Mark::Bad,
        "A",
        Some("fw_setenv|BOOT_A_LEFT|0\nfw_setenv|BOOT_ORDER|B B AB\n"),
    ),
    (
        "BOOT_ORDER=A",
        Mark::Bad,
        "A",
        Some("fw_setenv|BOOT_A_LEFT|0\nfw_setenv|BOOT_ORDER|\n"),
    ),
    (
        "BOOT_ORDER=B  C",
        Mark::Bad,
        "A",
        Some("fw_setenv|BOOT_A_LEFT|0\n"),
    ),
    ("", Mark::Bad, "A", Some("fw_setenv|BOOT_A_LEFT|0\n")),
    (
        "BOOT_ORDER=B  A\t",
        Mark::Good,
        "A",
        Some("fw_setenv|BOOT_A_LEFT|3\n"),
    ),
    (
        "BOOT_ORDER=B B",
        Mark::Good,
        "A",
        Some("fw_setenv|BOOT_A_LEFT|3\nfw_setenv|BOOT_ORDER|B B A\n"),
    ),
    (
        "",
        Mark::Good,
        "A",
        Some("fw_setenv|BOOT_A_LEFT|3\nfw_setenv|BOOT_ORDER|A\n"),
    ),
    (
        "BOOT_ORDER= ",
        Mark::Good,
        "C",
        Some("fw_setenv|BOOT_C_LEFT|3\nfw_setenv|BOOT_ORDER|C\n"),
    ),
    (
        "BOOT_ORDER=B A B",
        Mark::Primary,
        "A",
        Some("fw_setenv|BOOT_A_LEFT|5\nfw_setenv|BOOT_ORDER|A B\n"),
    ),
    (
        "BOOT_ORDER=B\tD",
        Mark::Primary,
        "C",
        Some("fw_setenv|BOOT_C_LEFT|5\nfw_setenv|BOOT_ORDER|C B D\n"),
    ),
    (
        "BOOT_ORDER=A",
        Mark::Primary,
        "A",
        Some("fw_setenv|BOOT_A_LEFT|5\nfw_setenv|BOOT_ORDER|A\n"),
    ),
    (
        "",
        Mark::Primary,
        "B",
        Some("fw_setenv|BOOT_B_LEFT|5\nfw_setenv|BOOT_ORDER|B A C\n"),
    ),
    (
        "BOOT_ORDER=\t ",
        Mark::Primary,
        "A",
        Some("fw_setenv|BOOT_A_LEFT|5\nfw_setenv|BOOT_ORDER|A B C\n"),
    ),
    (
        "ORDER=C\nBOOT_ORDER=C A",
        Mark::Primary,
        "A",
        Some("fw_setenv|BOOT_A_LEFT|5\nfw_setenv|BOOT_ORDER|A C\n"),
    ),
];

static UBOOT_READS: Reads = (
    &["A", "B", "C"],
    [
        "fw_printenv|BOOT_ORDER\n",
        "fw_printenv|BOOT_ORDER\n",
        "fw_printenv|BOOT_ORDER\n",
    ],
    "fw_printenv|BOOT_ORDER\nfw_printenv|BOOT_A_LEFT\nfw_printenv|BOOT_B_LEFT\nfw_printenv|BOOT_C_LEFT\n",
);

static BAREBOX: [Plan; 8] = [
    (
        "bootstate.A.priority=20",
        Mark::Bad,
        "A",
        Some("barebox-state|-s|bootstate.A.priority=0|-s|bootstate.A.remaining_attempts=0\n"),
    ),
    (
        "",
        Mark::Good,
        "A",
        Some("barebox-state|-s|bootstate.A.remaining_attempts=2|-s|bootstate.A.priority=10\n"),
    ),
    (
        "bootstate.A.priority=00",
        Mark::Good,
        "A",
        Some("barebox-state|-s|bootstate.A.remaining_attempts=2|-s|bootstate.A.priority=10\n"),
    ),
    (
        "bootstate.A.priority=x",
        Mark::Good,
        "A",
        Some("barebox-state|-s|bootstate.A.remaining_attempts=2|-s|bootstate.A.priority=10\n"),
    ),
    (
        "bootstate.A.priority=5",
        Mark::Good,
        "A",
        Some("barebox-state|-s|bootstate.A.remaining_attempts=2\n"),
    ),
    (
        "bootstate.A.priority=0\nbootstate.B.priority=3\nbootstate.C.priority=7",
        Mark::Primary,
        "B",
        Some(
            "barebox-state|-s|bootstate.B.priority=20|-s|bootstate.B.remaining_attempts=4|-s|bootstate.C.priority=10\n",
        ),
    ),
    (
        "bootstate.A.priority=1\nbootstate.B.priority=20",
        Mark::Primary,
        "C",
        Some(
            "barebox-state|-s|bootstate.A.priority=10|-s|bootstate.B.priority=10|-s|bootstate.C.priority=20|-s|bootstate.C.remaining_attempts=4\n",
        ),
    ),
    (
        "",
        Mark::Primary,
        "A",
        Some("barebox-state|-s|bootstate.A.priority=20|-s|bootstate.A.remaining_attempts=4\n"),
    ),
];

static BAREBOX_READS: Reads = (
    &["A", "B"],
    [
        "",
        "barebox-state|-g|bootstate.A.priority|-g|bootstate.A.remaining_attempts|-g|bootstate.B.priority|-g|bootstate.B.remaining_attempts\n",
        "barebox-state|-g|bootstate.A.priority|-g|bootstate.A.remaining_attempts|-g|bootstate.B.priority|-g|bootstate.B.remaining_attempts\n",
    ],
    "barebox-state|-g|bootstate.A.priority|-g|bootstate.A.remaining_attempts|-g|bootstate.B.priority|-g|bootstate.B.remaining_attempts\n",
);

static NAMELESS_READS: Reads = (&[], ["", "", ""], "");

static NAMED_STATE: [Plan; 2] = [
    (
        "",
        Mark::Bad,
        "C",
        Some(
            "barebox-state|-n|emmc|-s|bootstate.C.priority=0|-s|bootstate.C.remaining_attempts=0\n",
        ),
    ),
    (
        "bootstate.C.priority=1",
        Mark::Good,
        "C",
        Some("barebox-state|-n|emmc|-s|bootstate.C.remaining_attempts=9\n"),
    ),
];

static NAMED_STATE_READS: Reads = (
    &["C"],
    [
        "",
        "barebox-state|-n|emmc|-g|bootstate.C.priority|-g|bootstate.C.remaining_attempts\n",
        "barebox-state|-n|emmc|-g|bootstate.C.priority|-g|bootstate.C.remaining_attempts\n",
    ],
    "barebox-state|-n|emmc|-g|bootstate.C.priority|-g|bootstate.C.remaining_attempts\n",
);

static EFI: [Plan; 17] = [
    (
        "BootNext=0002\nBootOrder=0003,0001,0002\nBoot0002=A\nBoot0001=A\nBoot0003=B",
        Mark::Bad,
        "A",
        Some("efibootmgr|-N\nefibootmgr|-o|0003\n"),
    ),
    (
        "BootNext=0003\nBootOrder=0001\nBoot0001=A\nBoot0003=B",
        Mark::Bad,
        "A",
        Some("efibootmgr|-O\n"),
    ),
    (
        "BootOrder=0003\nBoot0001=A\nBoot0003=B",
        Mark::Bad,
        "A",
        Some(""),
    ),
    (
        "BootNext=0001\nBoot0001=A",
        Mark::Bad,
        "A",
        Some("efibootmgr|-N\n"),
    ),
    (
        "BootNext=0001\nBootOrder=0001\nBoot0001=AA\nBoot00ab=A\nBoot00011=A\nBoot002=A",
        Mark::Bad,
        "A",
        None,
    ),
    (
        "BootOrder=0003,0002\nBoot0002=A\nBoot0001=A\nBoot0003=B",
        Mark::Good,
        "A",
        Some("efibootmgr|-o|0001,0003\n"),
    ),
    (
        "BootOrder=0002,0001,0003,0003\nBoot0002=A\nBoot0001=A\nBoot0003=B",
        Mark::Good,
        "A",
        Some("efibootmgr|-o|0001,0003,0003\n"),
    ),
    (
        "BootNext=0003\nBootOrder=0001,0003\nBoot0001=A\nBoot0003=B",
        Mark::Good,
        "A",
        Some(""),
    ),
    (
        "BootOrder=0001,,0003\nBoot0001=A\nBoot0003=B",
        Mark::Good,
        "A",
        Some("efibootmgr|-o|0001,0003\n"),
    ),
    (
        "BootOrder=0009,0003,zz\nBootFFFF=A\nBoot00AB=A",
        Mark::Good,
        "A",
        Some("efibootmgr|-o|00AB,0009,0003,zz\n"),
    ),
    ("Boot0001=A", Mark::Good, "A", Some("efibootmgr|-o|0001\n")),
    ("BootOrder=0001\nBoot0001=A", Mark::Good, "B", None),
    (
        "BootNext=0003\nBootOrder=0003,0001\nBoot0001=A\nBoot0003=B",
        Mark::Primary,
        "A",
        Some("efibootmgr|-N\nefibootmgr|-o|0001,0003\n"),
    ),
    (
        "BootOrder=0001\nBoot0001=A",
        Mark::Primary,
        "A",
        Some("efibootmgr|-o|0001\n"),
    ),
    (
        "BootNext=\nBoot0002=A\nBoot0001=A",
        Mark::Primary,
        "A",
        Some("efibootmgr|-N\nefibootmgr|-o|0001\n"),
    ),
    ("BootNext=0001\nBoot0001=A", Mark::Primary, "B", None),
    ("", Mark::Primary, "A", None),
];

static NEXT_EFI: [Plan; 4] = [
    (
        "BootNext=0003\nBootOrder=0003\nBoot0002=A\nBoot0001=A\nBoot0003=B",
        Mark::Primary,
        "A",
        Some("efibootmgr|-n|0001\n"),
    ),
    (
        "BootNext=0001\nBootOrder=0003,0001\nBoot0001=A",
        Mark::Bad,
        "A",
        Some("efibootmgr|-N\nefibootmgr|-o|0003\n"),
    ),
    (
        "BootNext=0001\nBootOrder=0003,0001\nBoot0001=A",
        Mark::Good,
        "A",
        Some("efibootmgr|-o|0001,0003\n"),
    ),
    ("BootOrder=0001\nBoot0001=B", Mark::Primary, "A", None),
];

static EFI_READS: Reads = (
    &["A", "B", "C"],
    ["efibootmgr\n", "efibootmgr\n", "efibootmgr\n"],
    "efibootmgr\n",
);

static CUSTOM: [Plan; 3] = [
    ("", Mark::Bad, "A", Some("/sbin/backend|set-state|A|bad\n")),
    (
        "state.A=bad",
        Mark::Good,
        "A",
        Some("/sbin/backend|set-state|A|good\n"),
    ),
    (
        "primary=A",
        Mark::Primary,
        "B",
        Some("/sbin/backend|set-primary|B\n"),
    ),
];

static CUSTOM_READS: Reads = (
    &["A", "B"],
    ["", "", ""],
    "/sbin/backend|get-primary\n/sbin/backend|get-state|A\n/sbin/backend|get-state|B\n",
);

static NOOP: [Plan; 3] = [
    ("", Mark::Bad, "A", Some("")),
    ("ORDER=B", Mark::Good, "A", Some("")),
    ("BOOT_ORDER=B", Mark::Primary, "A", Some("")),
];

static NOOP_READS: Reads = (&["A", "B"], ["", "", ""], "");

// Puts a command on a line of its own, with a bar between its words.
fn push_line(text: &mut String, alloc: Global, command: &Command) -> Result<(), NoMemory> {
    text.push_str(program_of(command))?;
    let arguments = arguments_of(alloc, command)?;
    for argument in arguments.as_slice() {
        text.push('|')?;
        text.push_str(argument.as_str())?;
    }
    text.push('\n')?;
    Ok(())
}

fn text_of(alloc: Global, commands: &[Command]) -> Result<String, NoMemory> {
    let mut text = String::new(alloc);
    for command in commands {
        push_line(&mut text, alloc, command)?;
    }
    Ok(text)
}

fn is_text(alloc: Global, commands: &[Command], text: &str) -> bool {
    match text_of(alloc, commands) {
        Ok(found) => found.as_str() == text,
        Err(_) => false,
    }
}

// Whether a row holds.
fn plans(alloc: Global, kind: &BootKind, row: &Plan) -> Result<bool, NoMemory>
    requires { HasDigits kind.now }
{
    let (text, mark, name, expected) = *row;
    let names = words_of(alloc, &NAMES)?;
    let vars = vars_of(alloc, text)?;
    let planned = plan_of(alloc, kind, names.as_slice(), mark, name, &vars)?;
    Ok(match (planned, expected) {
        (Some(commands), Some(text)) => is_text(alloc, commands.as_slice(), text),
        (None, None) => true,
        _ => false,
    })
}

// The first row that does not hold.
fn wrong_plan(alloc: Global, kind: &BootKind, rows: &[Plan]) -> Option<usize>
    requires { HasDigits kind.now }
{
    for (at, row) in rows.iter().enumerate() {
        if !matches!(plans(alloc, kind, row), Ok(true)) {
            return Some(at);
        }
    }
    None
}

fn looks(
    alloc: Global,
    kind: &BootKind,
    names: &[Text],
    mark: Mark,
    text: &str,
) -> Result<bool, NoMemory> {
    let commands = looks_of(alloc, kind, names, mark)?;
    Ok(is_text(alloc, commands.as_slice(), text))
}

fn has_reads(alloc: Global, kind: &BootKind, reads: &Reads) -> Result<bool, NoMemory> {
    let (names, [bad, good, primary], all) = *reads;
    let names = words_of(alloc, names)?;
    let names = names.as_slice();
    let readings = readings_of(alloc, kind, names)?;
    Ok(
        looks(alloc, kind, names, Mark::Bad, bad)?
            && looks(alloc, kind, names, Mark::Good, good)?
            && looks(alloc, kind, names, Mark::Primary, primary)?
            && is_text(alloc, readings.as_slice(), all),
    )
}

// Whether the reading commands are these.
fn reads(alloc: Global, kind: &BootKind, reads: &Reads) -> bool {
    matches!(has_reads(alloc, kind, reads), Ok(true))
}

#[test]
fn grub(rt: HostRuntime) -> Result<(), Fail> {
    let alloc = rt.alloc();
    let file = Text::new(alloc, "/boot/grubenv")?;
    let kind = BootKind::Grub { file };
    let wrong = wrong_plan(alloc, &kind, &GRUB);
    assert_eq!(rt; (wrong, reads(alloc, &kind, &GRUB_READS)), (None, true));
    Ok(())
}

#[test]
fn uboot(rt: HostRuntime) {
    let alloc = rt.alloc();
    let kind = BootKind::Uboot {
        attempts: 3,
        primary_attempts: 5,
    };
    let wrong = wrong_plan(alloc, &kind, &UBOOT);
    assert_eq!(rt; (wrong, reads(alloc, &kind, &UBOOT_READS)), (None, true));
}

#[test]
fn barebox(rt: HostRuntime) {
    let alloc = rt.alloc();
    let kind = BootKind::Barebox {
        state: None,
        attempts: 2,
        primary_attempts: 4,
    };
    let wrong = wrong_plan(alloc, &kind, &BAREBOX);
    let reads = reads(alloc, &kind, &BAREBOX_READS) && reads(alloc, &kind, &NAMELESS_READS);
    assert_eq!(rt; (wrong, reads), (None, true));
}

#[test]
fn barebox_with_a_named_state(rt: HostRuntime) -> Result<(), Fail> {
    let alloc = rt.alloc();
    let state = Some(Text::new(alloc, "emmc")?);
    let kind = BootKind::Barebox {
        state,
        attempts: 9,
        primary_attempts: 1,
    };
    let wrong = wrong_plan(alloc, &kind, &NAMED_STATE);
    assert_eq!(rt;
        (wrong, reads(alloc, &kind, &NAMED_STATE_READS)),
        (None, true)
    );
    Ok(())
}

#[test]
fn efi(rt: HostRuntime) {
    let alloc = rt.alloc();
    let kind = BootKind::Efi { use_next: false };
    let wrong = wrong_plan(alloc, &kind, &EFI);
    assert_eq!(rt; (wrong, reads(alloc, &kind, &EFI_READS)), (None, true));
}

#[test]
fn efi_with_the_next_boot(rt: HostRuntime) {
    let alloc = rt.alloc();
    let kind = BootKind::Efi { use_next: true };
    let wrong = wrong_plan(alloc, &kind, &NEXT_EFI);
    assert_eq!(rt; (wrong, reads(alloc, &kind, &EFI_READS)), (None, true));
}

#[test]
fn custom(rt: HostRuntime) -> Result<(), Fail> {
    let alloc = rt.alloc();
    let program = Text::new(alloc, "/sbin/backend")?;
    let kind = BootKind::Custom { program };
    let wrong = wrong_plan(alloc, &kind, &CUSTOM);
    assert_eq!(rt; (wrong, reads(alloc, &kind, &CUSTOM_READS)), (None, true));
    Ok(())
}

#[test]
fn noop(rt: HostRuntime) {
    let alloc = rt.alloc();
    let wrong = wrong_plan(alloc, &BootKind::Noop, &NOOP);
    assert_eq!(rt;
        (wrong, reads(alloc, &BootKind::Noop, &NOOP_READS)),
        (None, true)
    );
}

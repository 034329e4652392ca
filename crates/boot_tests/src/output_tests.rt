use boot_commands::Command;
use boot_model::Vars;
use boot_outputs::take_output;
use std::alloc::Global;
use updater_text::{Items, NoMemory, Text};

// What a command printed, and the variables after it, one `name=value` a line; None where the text
// is not in its form, and the variables stay.
type Row = (&'static str, Option<&'static str>);

// The first text has the variables that RAUC's manual, chapter Integration, names for GRUB; the
// last but one is an environment block as a whole.
static LIST: [Row; 13] = [
    (
        "ORDER=A B\nA_OK=1\nA_TRY=0\nB_OK=1\nB_TRY=0\n",
        Some("A_OK=1\nA_TRY=0\nB_OK=1\nB_TRY=0\nORDER=A B\nz=1"),
    ),
    ("", Some("A_OK=old\nz=1")),
    ("\n", Some("A_OK=old\nz=1")),
    ("A_OK=1", Some("A_OK=1\nz=1")),
    ("A_OK=1\nA_OK=0\n", Some("A_OK=0\nz=1")),
    ("A_OK=1\nA_OK=\n", Some("A_OK=\nz=1")),
    ("A_OK\nB_OK=1\n", Some("A_OK=old\nB_OK=1\nz=1")),
    ("=v\n", Some("=v\nA_OK=old\nz=1")),
    ("k=a=b\n", Some("A_OK=old\nk=a=b\nz=1")),
    ("==\n", Some("==\nA_OK=old\nz=1")),
    ("A_OK=1\r\nz=\r\n", Some("A_OK=1\r\nz=\r")),
    (
        "# GRUB Environment Block\n# x=1\n\nk=2\n######",
        Some("# x=1\nA_OK=old\nk=2\nz=1"),
    ),
    (" A_OK =1 \n", Some(" A_OK =1 \nA_OK=old\nz=1")),
];

// The variable is the one that RAUC's manual, chapter Integration, names for U-Boot; the warning is
// that of U-Boot, tools/env/fw_env.c.
static VARIABLE: [Row; 17] = [
    ("BOOT_ORDER=A B\n", Some("BOOT_ORDER=A B\nz=1")),
    ("BOOT_ORDER=A B", Some("BOOT_ORDER=A B\nz=1")),
    ("BOOT_ORDER=\n", Some("BOOT_ORDER=\nz=1")),
    ("BOOT_ORDER=", Some("BOOT_ORDER=\nz=1")),
    ("BOOT_ORDER=A=B\n", Some("BOOT_ORDER=A=B\nz=1")),
    ("BOOT_ORDER=A\r\n", Some("BOOT_ORDER=A\r\nz=1")),
    ("BOOT_ORDER=A\nBOOT_ORDER=B\n", Some("BOOT_ORDER=A\nz=1")),
    ("BOOT_ORDER= A \nz=2\n", Some("BOOT_ORDER= A \nz=1")),
    ("", None),
    ("\n", None),
    ("BOOT_ORDER\n", None),
    ("BOOT_ORDE=A\n", None),
    ("BOOT_ORDER2=A\n", None),
    (" BOOT_ORDER=A\n", None),
    ("boot_order=A\n", None),
    ("\nBOOT_ORDER=A\n", None),
    (
        "Warning: Bad CRC, using default environment\nBOOT_ORDER=A\n",
        None,
    ),
];

// What `barebox-state -g A.priority -g A.attempts` of dt-utils prints.
static VALUES: [Row; 13] = [
    ("20\n3\n", Some("A.attempts=3\nA.priority=20\nz=1")),
    ("20\n3", Some("A.attempts=3\nA.priority=20\nz=1")),
    ("20\n\n", Some("A.attempts=\nA.priority=20\nz=1")),
    ("\n\n", Some("A.attempts=\nA.priority=\nz=1")),
    ("\n3", Some("A.attempts=3\nA.priority=\nz=1")),
    ("a=b\n x \n", Some("A.attempts= x \nA.priority=a=b\nz=1")),
    ("20\r\n3\r\n", Some("A.attempts=3\r\nA.priority=20\r\nz=1")),
    ("", None),
    ("\n", None),
    ("20", None),
    ("20\n", None),
    ("20\n3\n1\n", None),
    ("20\n3\n\n", None),
];

// The same for `-g A.priority -g z -g A.priority`, and for no name.
static REPEATED: [Row; 3] = [
    ("20\n2\n10\n", Some("A.priority=10\nz=2")),
    ("20\n2\n", None),
    ("20\n2\n10\n10\n", None),
];

static NO_VALUES: [Row; 3] = [
    ("", Some("A.priority=old\nz=1")),
    ("\n", None),
    ("20", None),
];

// The first text is that of efibootmgr(8); the second has device paths behind tabs, as version 18
// prints them.
static ENTRIES: [Row; 42] = [
    (
        "BootCurrent: 0004\nBootNext: 0003\nBootOrder: 0004,0000,0001,0002,0003\n\
         Timeout: 30 seconds\nBoot0000* Diskette Drive(device:0)\n\
         Boot0001* CD-ROM Drive(device:FF)\n\
         Boot0002* Hard Drive(Device:80)/HD(Part1,Sig00112233)\n\
         Boot0003* PXE Boot: MAC(00D0B7C15D91)\nBoot0004* Linux\n",
        Some(
            "Boot0000=Diskette Drive(device:0)\nBoot0001=CD-ROM Drive(device:FF)\n\
             Boot0002=Hard Drive(Device:80)/HD(Part1,Sig00112233)\n\
             Boot0003=PXE Boot: MAC(00D0B7C15D91)\nBoot0004=Linux\nBootNext=0003\n\
             BootOrder=0004,0000,0001,0002,0003\nz=1",
        ),
    ),
    (
        "BootCurrent: 0001\nTimeout: 1 seconds\nBootOrder: 0001,000A\n\
         Boot0001* A\tHD(1,GPT,2f4d,0x800,0x100000)/File(\\EFI\\A.EFI)\n\
         Boot000A  B\tHD(2,GPT,2f4e,0x800,0x100000)/File(\\EFI\\B.EFI)\n",
        Some("Boot0001=A\nBoot000A=B\nBootNext=0009\nBootOrder=0001,000A\nz=1"),
    ),
    ("", Some("Boot0001=old\nBootNext=0009\nz=1")),
    ("\n\n", Some("Boot0001=old\nBootNext=0009\nz=1")),
    (
        "BootNext: 00ab\nBootOrder: 00aB,c00c\nBoot0fFf* a\n",
        Some("Boot0001=old\nBoot0FFF=a\nBootNext=00AB\nBootOrder=00AB,C00C\nz=1"),
    ),
    (
        "BootNext: 0001\nBootNext: 0002",
        Some("Boot0001=old\nBootNext=0002\nz=1"),
    ),
    (
        "BootOrder: 0001\nBootOrder: ",
        Some("Boot0001=old\nBootNext=0009\nBootOrder=\nz=1"),
    ),
    (
        "Boot0001* A\nBoot0001* B\n",
        Some("Boot0001=B\nBootNext=0009\nz=1"),
    ),
    (
        "Boot00ab* A\nBoot00AB* B\n",
        Some("Boot0001=old\nBoot00AB=B\nBootNext=0009\nz=1"),
    ),
    ("Boot0001* \n", Some("Boot0001=\nBootNext=0009\nz=1")),
    ("Boot0001*\tA\n", Some("Boot0001=A\nBootNext=0009\nz=1")),
    ("Boot0001\t A\n", Some("Boot0001=A\nBootNext=0009\nz=1")),
    ("Boot0001  A\n", Some("Boot0001=A\nBootNext=0009\nz=1")),
    ("Boot0001*  A \n", Some("Boot0001= A \nBootNext=0009\nz=1")),
    (
        "Boot0001* A\tB\tC\n",
        Some("Boot0001=A\nBootNext=0009\nz=1"),
    ),
    ("Boot0001* \tA\n", Some("Boot0001=\nBootNext=0009\nz=1")),
    ("Boot0001* A\r\n", Some("Boot0001=A\r\nBootNext=0009\nz=1")),
    (
        "Boot0001* Gerät",
        Some("Boot0001=Gerät\nBootNext=0009\nz=1"),
    ),
    ("Boot0001\n", Some("Boot0001=old\nBootNext=0009\nz=1")),
    ("Boot0001*\n", Some("Boot0001=old\nBootNext=0009\nz=1")),
    ("Boot0001*A\n", Some("Boot0001=old\nBootNext=0009\nz=1")),
    ("Boot0001 A\n", Some("Boot0001=old\nBootNext=0009\nz=1")),
    ("Boot001* A\n", Some("Boot0001=old\nBootNext=0009\nz=1")),
    ("Boot00011* A\n", Some("Boot0001=old\nBootNext=0009\nz=1")),
    ("Boot000G* A\n", Some("Boot0001=old\nBootNext=0009\nz=1")),
    ("Boot000ä* A\n", Some("Boot0001=old\nBootNext=0009\nz=1")),
    ("boot0001* A\n", Some("Boot0001=old\nBootNext=0009\nz=1")),
    (" Boot0001* A\n", Some("Boot0001=old\nBootNext=0009\nz=1")),
    (
        "BootNext 0001\nBootOrder:\nBootNext:0001\nbootnext: x\n",
        Some("Boot0001=old\nBootNext=0009\nz=1"),
    ),
    ("BootNext: \n", None),
    ("BootNext: 1\n", None),
    ("BootNext: 00001\n", None),
    ("BootNext: 000G\n", None),
    ("BootNext: 0001 \n", None),
    ("BootNext: 0001\r\n", None),
    ("BootNext: x\nBootNext: 0001\n", None),
    ("Boot0001* A\nBootNext: 0001,0002", None),
    ("BootOrder: 0001,\n", None),
    ("BootOrder: ,0001\n", None),
    ("BootOrder: 0001,,0002\n", None),
    ("BootOrder: 0001 0002\n", None),
    ("BootOrder: 0001,002\n", None),
];

// What `get-primary` prints, by RAUC's manual on custom backends.
static PRIMARY: [Row; 7] = [
    ("A\n", Some("primary=A\nz=1")),
    ("A", Some("primary=A\nz=1")),
    ("", Some("primary=\nz=1")),
    ("\n", Some("primary=\nz=1")),
    ("A\nB\n", Some("primary=A\nz=1")),
    ("\nA\n", Some("primary=\nz=1")),
    (" A\r\n", Some("primary= A\r\nz=1")),
];

// And what `get-state A` prints.
static STATE: [Row; 12] = [
    ("good\n", Some("state.A=good\nz=1")),
    ("bad\n", Some("state.A=bad\nz=1")),
    ("good", Some("state.A=good\nz=1")),
    ("bad\ngood\n", Some("state.A=bad\nz=1")),
    ("", None),
    ("\n", None),
    ("fine\n", None),
    ("Good\n", None),
    ("good \n", None),
    ("good\r\n", None),
    ("\ngood\n", None),
    ("state.A=good\n", None),
];

// A command that writes, whatever it prints.
static WRITTEN: [Row; 2] = [
    ("", Some("primary=old\nz=1")),
    ("primary=B\nfine\n", Some("primary=old\nz=1")),
];

// What each row begins with, and the rows, by the word for a command.
fn rows_of(word: &str) -> (&'static str, &'static [Row]) {
    match word {
        "list" => ("A_OK=old\nz=1", &LIST),
        "variable" => ("BOOT_ORDER=old\nz=1", &VARIABLE),
        "values" => ("A.priority=old\nz=1", &VALUES),
        "repeated" => ("A.priority=old\nz=1", &REPEATED),
        "no values" => ("A.priority=old\nz=1", &NO_VALUES),
        "entries" => ("Boot0001=old\nBootNext=0009\nz=1", &ENTRIES),
        "primary" => ("primary=old\nz=1", &PRIMARY),
        "state" => ("state.A=old\nz=1", &STATE),
        _ => ("primary=old\nz=1", &WRITTEN),
    }
}

fn names_of(alloc: Global, words: &[&str]) -> Result<Items<Text>, NoMemory> {
    let mut names = Items::new(alloc);
    for word in words {
        let name = Text::new(alloc, word)?;
        names.push(name)?;
    }
    Ok(names)
}

fn values_of(alloc: Global, words: &[&str]) -> Result<Command, NoMemory> {
    let names = names_of(alloc, words)?;
    Ok(Command::PrintState { state: None, names })
}

fn command_of(alloc: Global, word: &str) -> Result<Command, NoMemory> {
    let program = Text::empty(alloc);
    let name = Text::new(
        alloc,
        if word == "variable" {
            "BOOT_ORDER"
        } else {
            "A"
        },
    )?;
    match word {
        "list" => Ok(Command::ListVariables { file: program }),
        "variable" => Ok(Command::PrintVariable { name }),
        "values" => values_of(alloc, &["A.priority", "A.attempts"]),
        "repeated" => values_of(alloc, &["A.priority", "z", "A.priority"]),
        "no values" => values_of(alloc, &[]),
        "entries" => Ok(Command::ListEntries),
        "primary" => Ok(Command::GetPrimary { program }),
        "state" => Ok(Command::GetState { program, name }),
        _ => Ok(Command::SetPrimary { program, name }),
    }
}

fn vars_of(alloc: Global, lines: &str) -> Result<Vars, NoMemory> {
    let mut vars = Vars::new(alloc);
    for line in lines.split('\n') {
        if let Some((name, value)) = line.split_once('=') {
            vars.set(name, value)?;
        }
    }
    Ok(vars)
}

// Whether these are the variables, of which the name of each ends at its first `=`.
fn are_vars(vars: &Vars, lines: &str) -> bool {
    let mut count = 0usize;
    for line in lines.split('\n') {
        let (name, value) = line.split_once('=').unwrap_or((line, ""));
        if vars.get(name).is_none_or(|found| found != value) {
            return false;
        }
        count = count.saturating_add(1);
    }
    vars.len() == count
}

fn holds(
    alloc: Global,
    command: &Command,
    before: &str,
    (out, after): (&str, Option<&str>),
) -> Result<bool, NoMemory> {
    let mut read = vars_of(alloc, before)?;
    let taken = take_output(alloc, command, out, &mut read)?;
    Ok(taken == after.is_some() && are_vars(&read, after.unwrap_or(before)))
}

// The first row for a command that does not hold, counted from 0.
fn wrong_row(alloc: Global, word: &str) -> Result<Option<usize>, NoMemory> {
    let command = command_of(alloc, word)?;
    let (before, rows) = rows_of(word);
    Ok(rows.iter().position(|row| !matches!(holds(alloc, &command, before, *row), Ok(true))))
}

static WORDS: [&str; 9] = [
    "list",
    "variable",
    "values",
    "repeated",
    "no values",
    "entries",
    "primary",
    "state",
    "written",
];

#[test]
fn takes_what_is_printed(rt: HostRuntime) {
    for word in WORDS {
        assert_eq!(rt; wrong_row(rt.alloc(), word), Ok(None), "{word}");
    }
}

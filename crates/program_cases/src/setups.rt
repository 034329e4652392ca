use crate::content::{content_of, entry_of};
use crate::forms::{cut, seconds_of};
use crate::scripts::scripts_of;
use boot_model::{BootKind, Vars};
use keyfile::KeyFile;
use machine::Named;
use machine_bench::{Bench, Setup};
use std::alloc::Global;
use updater_text::{Items, NoMemory, Text, read_number};

/// The value of a key that says how a case is run, or nothing.
pub fn run_value<'a>(case: &'a KeyFile, key: &str) -> &'a str {
    case.get("case", key).unwrap_or("")
}

/// The numbers that a key says.
pub fn numbers_of(alloc: Global, case: &KeyFile, key: &str) -> Result<Vec<u64>, NoMemory> {
    let mut numbers = Vec::new(alloc);
    for piece in run_value(case, key).split(';') {
        if let Some(number) = read_number(piece.as_bytes()) {
            numbers.push(number)?;
        }
    }
    Ok(numbers)
}

// What a group says to lie under a path.
fn named_in(alloc: Global, case: &KeyFile, group: usize, path: &str) -> Result<Named, NoMemory> {
    let path = Text::new(alloc, path)?;
    let bytes = Items::from_vec(content_of(alloc, case, group)?);
    Ok(Named { path, bytes })
}

// The disks or the files, by the word of their groups. A group with `missing` gives none.
fn named_of(alloc: Global, case: &KeyFile, word: &str) -> Result<Items<Named>, NoMemory> {
    let mut list = Items::new(alloc);
    for group in 0..case.groups() {
        let name = case.group(group).unwrap_or("");
        let (kind, path) = cut(name, ' ');
        if kind == word && case.get(name, "missing").is_none() {
            let named = named_in(alloc, case, group, path)?;
            list.push(named)?;
        }
    }
    Ok(list)
}

fn vars_of(alloc: Global, case: &KeyFile) -> Result<Vars, NoMemory> {
    let mut vars = Vars::new(alloc);
    let Some(group) = (0..case.groups()).find(|at| case.group(*at) == Some("vars")) else {
        return Ok(vars);
    };
    for at in 0..case.keys(group) {
        let (name, value) = entry_of(case, group, at);
        vars.set(name, value)?;
    }
    Ok(vars)
}

// The boot loader that KIND or KIND:PLACE names. The counts of attempts matter to no program.
fn loader_of(alloc: Global, value: &str) -> Result<BootKind, NoMemory> {
    let (word, place) = cut(value, ':');
    let place = Text::new(alloc, place)?;
    Ok(match word {
        "grub" => BootKind::Grub { file: place },
        "custom" => BootKind::Custom { program: place },
        "uboot" => BootKind::Uboot {
            attempts: 3,
            primary_attempts: 3,
        },
        "barebox" => BootKind::Barebox {
            state: None,
            attempts: 3,
            primary_attempts: 3,
        },
        "efi" => BootKind::Efi { use_next: true },
        _ => BootKind::Noop,
    })
}

fn setup_of(alloc: Global, case: &KeyFile, stop: Option<u64>) -> Result<Setup, NoMemory> {
    let boot = loader_of(alloc, run_value(case, "boot"))?;
    let fails = numbers_of(alloc, case, "fails")?;
    let disks = named_of(alloc, case, "disk")?;
    let files = named_of(alloc, case, "file")?;
    let vars = vars_of(alloc, case)?;
    let scripts = scripts_of(alloc, case)?;
    Ok(Setup {
        disks,
        files,
        boot,
        vars,
        scripts,
        fails: Items::from_vec(fails),
        stop,
        now: seconds_of(run_value(case, "now")),
    })
}

/// A machine as a case has it, on which the power stops at this call, if any.
pub fn bench_of(alloc: Global, case: &KeyFile, stop: Option<u64>) -> Result<Bench, NoMemory> {
    let setup = setup_of(alloc, case, stop)?;
    Bench::new(alloc, setup)
}

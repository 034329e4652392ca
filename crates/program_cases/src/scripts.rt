use crate::content::entry_of;
use crate::forms::{cut, number_of, word_of};
use keyfile::{KeyFile, items};
use machine::{Ended, copy_bytes};
use machine_bench::{Effect, Script};
use std::alloc::Global;
use updater_text::{Items, NoMemory, Text};

// How a child ends: by a signal, or with a status.
fn end_of(value: &str) -> Ended {
    if value == "signal" {
        return Ended::Signal;
    }
    Ended::Code(u8::try_from(number_of(value)).unwrap_or(0))
}

// What a child does by `put=PATH:TEXT`, `write=DISK:AT:TEXT` or `drop=PREFIX`.
fn effect_of(alloc: Global, word: &str, value: &str) -> Result<Effect, NoMemory> {
    let (path, rest) = cut(value, ':');
    let (at, text) = match word {
        "write" => cut(rest, ':'),
        _ => ("", rest),
    };
    let path = Text::new(alloc, path)?;
    let bytes = copy_bytes(alloc, text.as_bytes())?;
    let at = number_of(at);
    Ok(match word {
        "put" => Effect::PutFile { path, bytes },
        "write" => Effect::WriteDisk { path, at, bytes },
        _ => Effect::DropFiles { prefix: path },
    })
}

fn effects_of(alloc: Global, case: &KeyFile, group: usize) -> Result<Items<Effect>, NoMemory> {
    let mut effects = Items::new(alloc);
    for at in 0..case.keys(group) {
        let (key, value) = entry_of(case, group, at);
        let word = word_of(key);
        if word == "put" || word == "write" || word == "drop" {
            let effect = effect_of(alloc, word, value)?;
            effects.push(effect)?;
        }
    }
    Ok(effects)
}

// What the child does that the group of this name at this place says.
fn script_of(alloc: Global, case: &KeyFile, group: usize, name: &str) -> Result<Script, NoMemory> {
    let program = Text::new(alloc, case.get(name, "program").unwrap_or(""))?;
    let args = items(alloc, case.get(name, "args").unwrap_or(""))?;
    let out = copy_bytes(alloc, case.get(name, "out").unwrap_or("").as_bytes())?;
    let err = copy_bytes(alloc, case.get(name, "err").unwrap_or("").as_bytes())?;
    let effects = effects_of(alloc, case, group)?;
    Ok(Script {
        program,
        args: Items::from_vec(args),
        ended: end_of(case.get(name, "ended").unwrap_or("")),
        out,
        err,
        effects,
    })
}

/// What the children of a case do.
pub fn scripts_of(alloc: Global, case: &KeyFile) -> Result<Items<Script>, NoMemory> {
    let mut scripts = Items::new(alloc);
    for group in 0..case.groups() {
        let name = case.group(group).unwrap_or("");
        let (kind, _) = cut(name, ' ');
        if kind == "script" {
            let script = script_of(alloc, case, group, name)?;
            scripts.push(script)?;
        }
    }
    Ok(scripts)
}

use crate::cases::{Case, Play};
use boot_model::{BootKind, Vars};
use keyfile::read;
use machine::copy_bytes;
use machine_bench::{Bench, Script, Setup};
use std::alloc::Global;
use system_conf::{System, read_system};
use updater_text::{Items, NoMemory, Text};

// What goes wrong on a machine: the call with this number fails, the power stops at this one, or a
// child does this.
#[derive(Clone, Copy)]
pub struct Trouble<'a> {
    pub fails: Option<u64>,
    pub stop: Option<u64>,
    pub play: Option<&'a Play>,
}

// A system with this boot loader and these slots.
fn conf_of(alloc: Global, boot: &str, slots: &str) -> Result<String, NoMemory> {
    let mut conf = String::from_str(alloc, "[system]\ncompatible=Test\nbootloader=")?;
    conf.push_str(boot)?;
    conf.push_str(slots)?;
    Ok(conf)
}

// The system of a configuration; None where it cannot be read.
pub fn system_of(alloc: Global, boot: &str, slots: &str) -> Option<System> {
    let Ok(conf) = conf_of(alloc, boot, slots) else {
        return None;
    };
    let Ok(file) = read(alloc, conf.as_bytes()) else {
        return None;
    };
    match read_system(alloc, &file) {
        Ok(system) => Some(system),
        Err(_) => None,
    }
}

fn kind_of(alloc: Global, boot: &str) -> Option<BootKind> {
    match system_of(alloc, boot, "") {
        Some(system) => Some(system.boot),
        None => None,
    }
}

// Puts the words, which have a bar between them, at the end.
fn push_words(texts: &mut Items<Text>, alloc: Global, words: &str) -> Result<(), NoMemory> {
    for word in words.split('|') {
        let text = Text::new(alloc, word)?;
        texts.push(text)?;
    }
    Ok(())
}

fn args_of(alloc: Global, words: Option<&str>) -> Result<Items<Text>, NoMemory> {
    let mut args = Items::new(alloc);
    if let Some(words) = words {
        push_words(&mut args, alloc, words)?;
    }
    Ok(args)
}

// The name of a program, and the words behind it, if any.
pub fn split_words(words: &str) -> (&str, Option<&str>) {
    match words.split_once('|') {
        Some((program, args)) => (program, Some(args)),
        None => (words, None),
    }
}

// These bytes, and so many more of one value.
fn filled(alloc: Global, bytes: &[u8], fill: u8, more: usize) -> Result<Items<u8>, NoMemory> {
    let mut text = vec![in alloc; fill; more]?;
    let front = copy_bytes(alloc, bytes)?;
    let mut out = front.into_vec();
    out.append(&mut text)?;
    Ok(Items::from_vec(out))
}

fn script(
    alloc: Global,
    play: &Play,
    program: Text,
    args: Items<Text>,
    out: Items<u8>,
    err: Items<u8>,
) -> Script {
    Script {
        program,
        args,
        ended: play.ended,
        out,
        err,
        effects: Items::new(alloc),
    }
}

fn push_play(scripts: &mut Items<Script>, alloc: Global, play: &Play) -> Result<(), NoMemory> {
    let (program, args) = split_words(play.words);
    let program = Text::new(alloc, program)?;
    let args = args_of(alloc, args)?;
    let out = filled(alloc, play.out, play.fill, play.more)?;
    let err = filled(alloc, &[], b'\n', play.err)?;
    scripts.push(script(alloc, play, program, args, out, err))
}

fn push_plays(scripts: &mut Items<Script>, alloc: Global, plays: &[Play]) -> Result<(), NoMemory> {
    for play in plays {
        push_play(scripts, alloc, play)?;
    }
    Ok(())
}

fn set_vars(vars: &mut Vars, text: &str) -> Result<(), NoMemory> {
    for line in text.split('\n') {
        if let Some((name, value)) = line.split_once('=') {
            vars.set(name, value)?;
        }
    }
    Ok(())
}

fn empty_setup(alloc: Global, boot: BootKind, stop: Option<u64>) -> Setup {
    Setup {
        disks: Items::new(alloc),
        files: Items::new(alloc),
        boot,
        vars: Vars::new(alloc),
        scripts: Items::new(alloc),
        fails: Items::new(alloc),
        stop,
        now: 0,
    }
}

fn push_trouble(setup: &mut Setup, alloc: Global, trouble: &Trouble) -> Result<(), NoMemory> {
    if let Some(number) = trouble.fails {
        setup.fails.push(number)?;
    }
    if let Some(play) = trouble.play {
        push_play(&mut setup.scripts, alloc, play)?;
    }
    Ok(())
}

fn fill_setup(setup: &mut Setup, alloc: Global, case: &Case, trouble: &Trouble) -> bool {
    push_trouble(setup, alloc, trouble).is_ok()
        && push_plays(&mut setup.scripts, alloc, case.plays).is_ok()
        && set_vars(&mut setup.vars, case.vars).is_ok()
}

fn bench_with(alloc: Global, boot: BootKind, case: &Case, trouble: &Trouble) -> Option<Bench> {
    let mut setup = empty_setup(alloc, boot, trouble.stop);
    if !fill_setup(&mut setup, alloc, case, trouble) {
        drop(setup);
        return None;
    }
    Bench::new(alloc, setup).ok()
}

// A machine with this boot loader, on which a case is to be run.
pub fn bench_of(alloc: Global, boot: &str, case: &Case, trouble: &Trouble) -> Option<Bench> {
    match kind_of(alloc, boot) {
        Some(boot) => bench_with(alloc, boot, case, trouble),
        None => None,
    }
}

use crate::steps::{Step, are_right};
use boot_model::{BootKind, Vars};
use machine::{Ended, Named, copy_bytes};
use machine_bench::{Bench, Script, Setup};
use std::alloc::Global;
use undo_log::Effect;
use updater_text::{Items, NoMemory, Text};

pub const DISK: &str = "/dev/disk";

pub const SPARED: &str = "/dev/spared";

pub const FILE: &str = "/etc/file";

pub const MOUNT: &str = "/bin/mount";

// What a child does to a path, with the bytes 9 and 8.
pub enum Act {
    Put,
    Write(u64),
    Drop,
}

// A script of the program at `MOUNT`: the front of the arguments that it is for, how it ends, how many
// bytes it puts out, and what it does.
pub struct Play {
    pub args: &'static [&'static str],
    pub ended: Ended,
    pub out: usize,
    pub acts: &'static [(Act, &'static str)],
}

// The numbers of the calls that fail, the number of the one at which the power stops, what children
// do, and what is done on the bench. Then the power stops, `pick` chooses what that leaves, and `left`
// is done on it.
pub struct Case {
    pub fails: &'static [u64],
    pub stop: Option<u64>,
    pub plays: &'static [Play],
    pub steps: &'static [Step],
    pub pick: u64,
    pub left: &'static [Step],
}

pub const PLAIN: Case = Case {
    fails: &[],
    stop: None,
    plays: &[],
    steps: &[],
    pick: 0,
    left: &[],
};

pub fn push_texts(texts: &mut Items<Text>, alloc: Global, words: &[&str]) -> bool {
    for word in words {
        let pushed = match Text::new(alloc, word) {
            Ok(text) => texts.push(text).is_ok(),
            Err(NoMemory) => false,
        };
        if !pushed {
            return false;
        }
    }
    true
}

fn push_named(
    list: &mut Items<Named>,
    alloc: Global,
    path: &str,
    bytes: &[u8],
) -> Result<(), NoMemory> {
    let path = Text::new(alloc, path)?;
    let bytes = copy_bytes(alloc, bytes)?;
    list.push(Named { path, bytes })
}

fn effect(act: &Act, path: Text, bytes: Items<u8>) -> Effect {
    match act {
        Act::Put => Effect::PutFile { path, bytes },
        Act::Write(at) => Effect::WriteDisk {
            path,
            at: *at,
            bytes,
        },
        Act::Drop => Effect::DropFiles { prefix: path },
    }
}

fn push_effects(
    effects: &mut Items<Effect>,
    alloc: Global,
    acts: &[(Act, &str)],
) -> Result<(), NoMemory> {
    for (act, path) in acts {
        let path = Text::new(alloc, path)?;
        let bytes = copy_bytes(alloc, &[9, 8])?;
        effects.push(effect(act, path, bytes))?;
    }
    Ok(())
}

fn push_script(
    scripts: &mut Items<Script>,
    alloc: Global,
    play: &Play,
    program: Text,
    out: Vec<u8>,
) -> bool {
    let mut script = Script {
        program,
        args: Items::new(alloc),
        ended: play.ended,
        out: Items::from_vec(out),
        err: Items::new(alloc),
        effects: Items::new(alloc),
    };
    let filled = push_texts(&mut script.args, alloc, play.args)
        && push_effects(&mut script.effects, alloc, play.acts).is_ok();
    scripts.push(script).is_ok() && filled
}

fn push_scripts(
    scripts: &mut Items<Script>,
    alloc: Global,
    plays: &[Play],
) -> Result<(), NoMemory> {
    for play in plays {
        let program = Text::new(alloc, MOUNT)?;
        let out = vec![in alloc; 7; play.out]?;
        if !push_script(scripts, alloc, play, program, out) {
            return Err(NoMemory);
        }
    }
    Ok(())
}

fn push_numbers(numbers: &mut Items<u64>, more: &[u64]) -> Result<(), NoMemory> {
    for number in more {
        numbers.push(*number)?;
    }
    Ok(())
}

// The boot loader's program is the one at `MOUNT`.
fn empty_setup(alloc: Global, program: Text, stop: Option<u64>) -> Setup {
    Setup {
        disks: Items::new(alloc),
        files: Items::new(alloc),
        boot: BootKind::Custom { program },
        vars: Vars::new(alloc),
        scripts: Items::new(alloc),
        fails: Items::new(alloc),
        stop,
        now: 1_714_564_800,
    }
}

// Two disks of four bytes and a file of three.
fn fill_setup(setup: &mut Setup, alloc: Global, case: &Case) -> bool {
    push_named(&mut setup.disks, alloc, DISK, &[1, 2, 3, 4]).is_ok()
        && push_named(&mut setup.disks, alloc, SPARED, &[1, 2, 3, 4]).is_ok()
        && push_named(&mut setup.files, alloc, FILE, &[5, 6, 7]).is_ok()
        && push_numbers(&mut setup.fails, case.fails).is_ok()
        && push_scripts(&mut setup.scripts, alloc, case.plays).is_ok()
}

fn is_right_after_stop(m: Bench, alloc: Global, case: &Case) -> bool {
    match m.after_stop(case.pick) {
        Ok(mut left) => {
            let right = are_right(&mut left, alloc, case.left);
            // (a `drop` is proved faster than the end of a block)
            drop(left);
            right
        }
        Err(NoMemory) => false,
    }
}

fn is_right(alloc: Global, case: &Case) -> bool {
    let Ok(program) = Text::new(alloc, MOUNT) else {
        return false;
    };
    let mut setup = empty_setup(alloc, program, case.stop);
    let filled = fill_setup(&mut setup, alloc, case);
    match Bench::new(alloc, setup) {
        Ok(mut m) => {
            let right = filled && are_right(&mut m, alloc, case.steps);
            is_right_after_stop(m, alloc, case) && right
        }
        Err(NoMemory) => false,
    }
}

// The row of the first case that is not as it should be.
pub fn first_wrong(alloc: Global, cases: &[Case]) -> Option<usize> {
    for (row, case) in cases.iter().enumerate() {
        if !is_right(alloc, case) {
            return Some(row);
        }
    }
    None
}

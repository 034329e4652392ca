use crate::answers::{answers, are_vars, are_words};
use crate::setups::{Trouble, bench_of, split_words, system_of};
use machine::{Ended, RunNote, World};
use machine_bench::Bench;
use std::alloc::Global;
use system_conf::System;
use updater_text::NoMemory;

pub const WELL: Ended = Ended::Code(0);

// Two roots with bootnames, between which a slot without one stands.
pub const TWO: &str = "
[slot.rootfs.0]
device=/dev/a
bootname=A
[slot.appfs.0]
device=/dev/c
parent=rootfs.0
[slot.rootfs.1]
device=/dev/b
bootname=B
";

// Three roots with bootnames.
pub const THREE: &str = "
[slot.rootfs.0]
device=/dev/a
bootname=A
[slot.rootfs.1]
device=/dev/b
bootname=B
[slot.rootfs.2]
device=/dev/c
bootname=C
";

// How a program with these words ends, what it prints, so many more bytes of one value, and how many
// bytes of its error output. Words have a bar between them.
#[derive(Clone, Copy)]
pub struct Play {
    pub words: &'static str,
    pub ended: Ended,
    pub out: &'static [u8],
    pub fill: u8,
    pub more: usize,
    pub err: usize,
}

pub const SILENT: Play = Play {
    words: "",
    ended: WELL,
    out: b"",
    fill: b'\n',
    more: 0,
    err: 0,
};

#[derive(Clone, Copy)]
pub enum Call {
    Bad(&'static str),
    Good(&'static str),
    Primary(&'static str),
    ReadVars,
    PrimarySlot,
}

// What a call answers; variables are lines, and commands are words.
#[derive(Clone, Copy)]
pub enum Answer {
    Done,
    Read(&'static str),
    Slot(Option<usize>),
    Ended(&'static str, Ended),
    Output(&'static str),
    Unlisted(&'static str),
    Fault,
}

// The words of a command and, where it writes, the variables after it.
pub type Step = (&'static str, Option<&'static str>);

// The variables before a call, what children do that do not act by their words, the call, the commands
// that it runs, and its answer.
pub struct Case {
    pub vars: &'static str,
    pub plays: &'static [Play],
    pub call: Call,
    pub steps: &'static [Step],
    pub answer: Answer,
}

// The boot loader of a configuration and its slots, and the boot loader of the machine.
#[derive(Clone, Copy)]
pub struct Device {
    pub boot: &'static str,
    pub slots: &'static str,
    pub machine: &'static str,
}

// What a call answers, how many of the commands were run, how many calls were made, and the variables.
#[derive(Clone, Copy)]
struct Wanted {
    answer: Answer,
    runs: usize,
    calls: usize,
    vars: &'static str,
}

// A case on a machine with this boot loader, and the system that the call is for.
#[derive(Clone, Copy)]
struct Bed<'a> {
    alloc: Global,
    system: &'a System,
    machine: &'static str,
    case: &'a Case,
}

const NONE: Trouble = Trouble {
    fails: None,
    stop: None,
    play: None,
};

fn is_run(note: &RunNote, words: &str) -> bool {
    let (program, args) = split_words(words);
    let child = &note.child;
    let same = match args {
        Some(args) => are_words(child.args.as_slice(), args),
        None => child.args.is_empty(),
    };
    same && child.program.as_str() == program
}

fn are_runs(runs: &[RunNote], steps: &[Step], count: usize) -> bool {
    let mut pairs = runs.iter().zip(steps.iter());
    runs.len() == count && count <= steps.len() && pairs.all(|(note, step)| is_run(note, step.0))
}

fn is_world(world: &World, case: &Case, wanted: &Wanted) -> bool {
    are_runs(world.runs.as_slice(), case.steps, wanted.runs) && are_vars(&world.vars, wanted.vars)
}

fn has_world(m: &Bench, case: &Case, wanted: &Wanted) -> bool {
    match m.world() {
        Ok(world) => is_world(&world, case, wanted),
        Err(NoMemory) => false,
    }
}

fn has_counts(m: &Bench, wanted: &Wanted) -> bool {
    let faults = match wanted.answer {
        Answer::Fault => 1,
        _ => 0,
    };
    m.calls() == wanted.calls as u64 && m.faults() == faults
}

// Whether a stop of the power leaves the same variables and runs.
fn stands_a_stop(m: Bench, case: &Case, wanted: &Wanted) -> bool {
    match m.after_stop(0) {
        Ok(left) => {
            let right = has_world(&left, case, wanted);
            drop(left);
            right
        }
        Err(NoMemory) => false,
    }
}

fn is_answered(bed: &Bed, m: &mut Bench, wanted: &Wanted) -> bool {
    answers(bed.alloc, m, bed.system, &bed.case.call, &wanted.answer)
}

fn is_right(bed: &Bed, trouble: &Trouble, wanted: &Wanted) -> bool {
    match bench_of(bed.alloc, bed.machine, bed.case, trouble) {
        Some(mut m) => {
            let answered = is_answered(bed, &mut m, wanted);
            let right = has_world(&m, bed.case, wanted) && has_counts(&m, wanted);
            stands_a_stop(m, bed.case, wanted) && answered && right
        }
        None => false,
    }
}

// The variables after so many of the commands.
fn vars_after(case: &Case, count: usize) -> &'static str {
    let done = case.steps.iter().take(count);
    done.filter_map(|step| step.1).last().unwrap_or(case.vars)
}

// All of the case goes as it says.
fn whole(case: &Case) -> Wanted {
    let count = case.steps.len();
    Wanted {
        answer: case.answer,
        runs: count,
        calls: count,
        vars: vars_after(case, count),
    }
}

// How a boot program ends that does not do its work, and what it prints.
static ENDS: [(Ended, &[u8]); 3] = [
    (Ended::Code(1), b"x"),
    (Ended::Code(2), b""),
    (Ended::Signal, b""),
];

// Where the call of a command fails, or the power stops at it.
fn is_right_without(bed: &Bed, at: usize, number: usize) -> bool {
    let wanted = Wanted {
        answer: Answer::Fault,
        runs: at,
        calls: number,
        vars: vars_after(bed.case, at),
    };
    let fails = Trouble {
        fails: Some(number as u64),
        ..NONE
    };
    let stops = Trouble {
        stop: Some(number as u64),
        ..NONE
    };
    is_right(bed, &fails, &wanted) && is_right(bed, &stops, &wanted)
}

// Where the program of a command ends otherwise than it may.
fn is_right_at_ends(bed: &Bed, words: &'static str, at: usize, number: usize) -> bool {
    for (ended, out) in &ENDS {
        let play = Play {
            words,
            ended: *ended,
            out,
            ..SILENT
        };
        let wanted = Wanted {
            answer: Answer::Ended(words, *ended),
            runs: number,
            calls: number,
            vars: vars_after(bed.case, at),
        };
        let trouble = Trouble {
            play: Some(&play),
            ..NONE
        };
        if !is_right(bed, &trouble, &wanted) {
            return false;
        }
    }
    true
}

// Where the program of a reading command prints what is no UTF-8.
fn is_right_unread(bed: &Bed, words: &'static str, at: usize, number: usize) -> bool {
    let play = Play {
        words,
        out: b"\xff",
        ..SILENT
    };
    let wanted = Wanted {
        answer: Answer::Output(words),
        runs: number,
        calls: number,
        vars: vars_after(bed.case, at),
    };
    let trouble = Trouble {
        play: Some(&play),
        ..NONE
    };
    is_right(bed, &trouble, &wanted)
}

// Where that of a writing command prints such, and more than is kept: that is not looked at.
fn is_right_unheard(bed: &Bed, words: &'static str) -> bool {
    let play = Play {
        words,
        fill: 255,
        more: 65_537,
        ..SILENT
    };
    let trouble = Trouble {
        play: Some(&play),
        ..NONE
    };
    is_right(bed, &trouble, &whole(bed.case))
}

fn is_right_at(bed: &Bed, step: &Step, at: usize, number: usize) -> bool {
    let (words, after) = *step;
    let printed = if after.is_none() {
        is_right_unread(bed, words, at, number)
    } else {
        is_right_unheard(bed, words)
    };
    printed && is_right_without(bed, at, number) && is_right_at_ends(bed, words, at, number)
}

// Whether a case goes as it says, and ends as it must with trouble at each of its commands.
fn is_right_throughout(bed: &Bed) -> bool {
    let steps = bed.case.steps;
    for at in 0..steps.len() {
        if !is_right_at(bed, &steps[at], at, at + 1) {
            return false;
        }
    }
    is_right(bed, &NONE, &whole(bed.case))
}

fn wrong_row(
    alloc: Global,
    system: &System,
    machine: &'static str,
    cases: &[Case],
) -> Option<usize> {
    for (row, case) in cases.iter().enumerate() {
        let bed = Bed {
            alloc,
            system,
            machine,
            case,
        };
        if !is_right_throughout(&bed) {
            return Some(row);
        }
    }
    None
}

// The row of the first case that is not right; a row behind all where the configuration is not read.
pub fn first_wrong(alloc: Global, device: &Device, cases: &[Case]) -> Option<usize> {
    match system_of(alloc, device.boot, device.slots) {
        Some(system) => wrong_row(alloc, &system, device.machine, cases),
        None => Some(cases.len()),
    }
}

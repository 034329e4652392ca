use boot_model::{BootKind, Vars};
use keyfile::read;
use machine::{Ended, Fault, Named, RunNote, Stop, World, copy_bytes};
use machine_bench::{Bench, Script, Setup};
use slot_marks::{Action, MarkRefusal, Marked, mark, mark_cause};
use std::alloc::Global;
use system_conf::{System, read_system};
use updater_text::{Items, NoMemory, Text};

// What a mark is run on, what goes wrong there, and the mark. A program with these words, between
// bars, ends so and prints so.
#[derive(Clone, Copy)]
pub struct Case {
    pub conf: &'static str,
    pub cmdline: Option<&'static [u8]>,
    pub status: Option<&'static [u8]>,
    pub now: i64,
    pub play: Option<(&'static str, Ended, &'static [u8])>,
    pub fails: Option<u64>,
    pub stop: Option<u64>,
    pub given: Option<&'static str>,
    pub action: Action,
    pub who: &'static str,
}

// What a mark tells, whether the status file could not be read, the words of the programs that were
// run, a line for each, and the status file after it.
#[derive(Clone, Copy)]
pub struct Wanted {
    pub told: Told,
    pub runs: &'static str,
    pub status: Option<&'static [u8]>,
}

#[derive(Clone, Copy)]
pub enum Told {
    // The place of the slot, its line, and whether the status file could not be read.
    Done(usize, &'static str, bool),
    Refused(&'static str),
    Fault(Fault),
}

// ---- the machine

pub fn system_of(alloc: Global, conf: &str) -> Option<System> {
    let Ok(file) = read(alloc, conf.as_bytes()) else {
        return None;
    };
    match read_system(alloc, &file) {
        Ok(system) => Some(system),
        Err(_) => None,
    }
}

fn kind_of(alloc: Global, conf: &str) -> Option<BootKind> {
    match system_of(alloc, conf) {
        Some(system) => Some(system.boot),
        None => None,
    }
}

fn empty_setup(alloc: Global, boot: BootKind, case: &Case) -> Setup {
    Setup {
        disks: Items::new(alloc),
        files: Items::new(alloc),
        boot,
        vars: Vars::new(alloc),
        scripts: Items::new(alloc),
        fails: Items::new(alloc),
        stop: case.stop,
        now: case.now,
    }
}

fn push_file(
    setup: &mut Setup,
    alloc: Global,
    path: &str,
    bytes: Option<&'static [u8]>,
) -> Result<(), NoMemory> {
    if let Some(bytes) = bytes {
        let path = Text::new(alloc, path)?;
        let bytes = copy_bytes(alloc, bytes)?;
        setup.files.push(Named { path, bytes })?;
    }
    Ok(())
}

fn args_of(alloc: Global, words: &str) -> Result<Items<Text>, NoMemory> {
    let mut args = Items::new(alloc);
    for word in words.split('|').skip(1) {
        let word = Text::new(alloc, word)?;
        args.push(word)?;
    }
    Ok(args)
}

fn script_of(
    alloc: Global,
    words: &str,
    ended: Ended,
    out: &'static [u8],
) -> Result<Script, NoMemory> {
    let program = Text::new(alloc, words.split('|').next().unwrap_or(""))?;
    let args = args_of(alloc, words)?;
    let out = copy_bytes(alloc, out)?;
    Ok(Script {
        program,
        args,
        ended,
        out,
        err: Items::new(alloc),
        effects: Items::new(alloc),
    })
}

fn push_trouble(setup: &mut Setup, alloc: Global, case: &Case) -> Result<(), NoMemory> {
    if let Some(number) = case.fails {
        setup.fails.push(number)?;
    }
    if let Some((words, ended, out)) = case.play {
        let script = script_of(alloc, words, ended, out)?;
        setup.scripts.push(script)?;
    }
    Ok(())
}

fn set_vars(vars: &mut Vars) -> Result<(), NoMemory> {
    vars.set("A_OK", "1")?;
    vars.set("A_TRY", "0")?;
    vars.set("B_OK", "1")?;
    vars.set("B_TRY", "0")?;
    vars.set("ORDER", "A B")
}

fn fill_setup(setup: &mut Setup, alloc: Global, case: &Case) -> bool {
    push_file(setup, alloc, "/proc/cmdline", case.cmdline).is_ok()
        && push_file(setup, alloc, "/status", case.status).is_ok()
        && push_trouble(setup, alloc, case).is_ok()
        && set_vars(&mut setup.vars).is_ok()
}

fn bench_with(alloc: Global, boot: BootKind, case: &Case) -> Option<Bench> {
    let mut setup = empty_setup(alloc, boot, case);
    if !fill_setup(&mut setup, alloc, case) {
        drop(setup);
        return None;
    }
    Bench::new(alloc, setup).ok()
}

pub fn bench_of(alloc: Global, case: &Case) -> Option<Bench> {
    match kind_of(alloc, case.conf) {
        Some(boot) => bench_with(alloc, boot, case),
        None => None,
    }
}

// ---- what came of it

fn is_cause(alloc: Global, system: &System, refusal: &MarkRefusal, wanted: &str) -> bool {
    match mark_cause(alloc, system, refusal) {
        Ok(cause) => cause.as_str() == wanted,
        Err(_) => false,
    }
}

fn is_done(marked: &Marked, told: &Told) -> bool {
    match told {
        Told::Done(slot, line, unread) => {
            marked.slot == *slot && marked.line.as_str() == *line && marked.book_unread == *unread
        }
        _ => false,
    }
}

fn is_stop(alloc: Global, system: &System, stop: &Stop<MarkRefusal>, told: &Told) -> bool {
    match (stop, told) {
        (Stop::Refused(refusal), Told::Refused(cause)) => is_cause(alloc, system, refusal, cause),
        (Stop::Outside(kind), Told::Fault(fault)) => *kind == *fault,
        _ => false,
    }
}

// Whether a mark tells this.
pub fn tells(alloc: Global, m: &mut Bench, system: &System, case: &Case, told: &Told) -> bool {
    match mark(alloc, m, system, case.given, case.action, case.who) {
        Ok(marked) => is_done(&marked, told),
        Err(stop) => is_stop(alloc, system, &stop, told),
    }
}

// Whether a child was run with these words.
fn is_run(note: &RunNote, line: &str) -> bool {
    let mut words = line.split('|');
    let mut same = words.next() == Some(note.child.program.as_str());
    for arg in note.child.args.as_slice() {
        same = same && words.next() == Some(arg.as_str());
    }
    same && words.next().is_none()
}

fn are_runs(runs: &[RunNote], lines: &str) -> bool {
    let mut pairs = runs.iter().zip(lines.lines());
    runs.len() == lines.lines().count() && pairs.all(|(note, line)| is_run(note, line))
}

// The bytes of the file at a path.
fn bytes_at<'a>(files: &'a [Named], path: &str) -> Option<&'a [u8]> {
    match files.iter().find(|file| file.path.as_str() == path) {
        Some(file) => Some(file.bytes.as_slice()),
        None => None,
    }
}

fn is_world(world: &World, runs: &str, status: Option<&'static [u8]>) -> bool {
    are_runs(world.runs.as_slice(), runs) && bytes_at(world.files.as_slice(), "/status") == status
}

// Whether these programs were run, and the status file is this one.
pub fn has_world(m: &Bench, runs: &str, status: Option<&'static [u8]>) -> bool {
    match m.world() {
        Ok(world) => is_world(&world, runs, status),
        Err(NoMemory) => false,
    }
}

fn is_right(alloc: Global, system: &System, case: &Case, wanted: &Wanted) -> bool {
    match bench_of(alloc, case) {
        Some(mut m) => {
            let told = tells(alloc, &mut m, system, case, &wanted.told);
            let right = has_world(&m, wanted.runs, wanted.status);
            drop(m);
            told && right
        }
        None => false,
    }
}

// Whether a mark goes so.
pub fn goes_so(alloc: Global, case: &Case, wanted: &Wanted) -> bool {
    match system_of(alloc, case.conf) {
        Some(system) => is_right(alloc, &system, case, wanted),
        None => false,
    }
}

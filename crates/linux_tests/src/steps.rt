// Steps at one path: what is asked of a machine or of the files, and what has to come of it.
ghost use Rattle.std.specs.Prelude.{◌≡◌, false};

use crate::paths::{Deed, has_process, is_done, is_removed, make_file};
use crate::runs::{End, ends, is_refused, puts};
use crate::watched::{Notes, Watched};
use machine::{CallStop, Machine, ReadStop, fill};
use machine_linux::Linux;
use std::alloc::Global;
use std::os::fd::AsRawFd;
use std::os::unix::fs::FileExt;
use std::process::{Processes, SystemProcess};
use std::rt::Files;
use std::thread::Threads;
use std::time::Clock;

pub const DONE: Result<(), CallStop> = Ok(());

pub const FAILED: Result<(), CallStop> = Err(CallStop::Failed);

// One step. What has to come of it stands last.
pub enum Step<'a> {
    // the whole file within a limit of bytes, or why there is none
    Whole(u64, &'a str),
    Missing(u64),
    Unread(u64, ReadStop),
    // the length of a disk, or of a disk or file
    Size(bool, Result<Option<u64>, CallStop>),
    // how many bytes of four are read from an offset on
    Count(u64, Result<usize, CallStop>),
    // the four bytes from an offset on
    Piece(u64, &'a [u8; 4]),
    // all bytes but the first, put into five
    Rest(Result<usize, CallStop>, &'a [u8; 5]),
    Write(u64, &'a str, Result<(), CallStop>),
    Sync(Result<(), CallStop>),
    Replace(&'a str, Result<(), CallStop>),
    Now(Result<i64, CallStop>),
    // a program that ends with 0 and puts this out
    Puts(&'a str, &'a [&'a str], &'a str),
    // a script of the shell
    Ends(&'a str, End),
    // a program that gives no end
    Refused(&'a str, &'a [&'a str]),
    // without the machine, the file whose name goes on with this
    Beside(&'a str, Deed<'a>),
}

// A new file with a name and a text, or a path of the system.
pub enum Place<'a> {
    New(&'a str, &'a str),
    At(&'a str),
}

// Steps that are taken in turn at one path.
pub struct Case<'a> {
    pub place: Place<'a>,
    pub steps: &'a [Step<'a>],
}

// A case over a watched system: what fails there, the case, and what is seen of the system then.
pub type Watch<'a> = (Trouble, Case<'a>, Trace);

pub enum Trouble {
    Nothing,
    // what is asked for fails, as a digit of the notes
    Step(u64),
    // no read of this pipe is answered, counted from 1
    Pipe(u32),
}

pub enum Trace {
    Any,
    // this was asked for in turn, as the digits of a number
    Asks(u64),
    NoChild,
    // a child was started, and it is no more
    Child,
}

fn is_whole<M: Machine>(m: &mut M, alloc: Global, path: &str, limit: u64, text: &str) -> bool {
    match m.file_read(alloc, path, limit) {
        Ok(Some(bytes)) => bytes.as_slice() == text.as_bytes(),
        _ => false,
    }
}

fn is_missing<M: Machine>(m: &mut M, alloc: Global, path: &str, limit: u64) -> bool {
    match m.file_read(alloc, path, limit) {
        Ok(None) => true,
        _ => false,
    }
}

fn is_unread<M: Machine>(
    m: &mut M,
    alloc: Global,
    path: &str,
    limit: u64,
    wanted: ReadStop,
) -> bool {
    match m.file_read(alloc, path, limit) {
        Err(stop) => stop == wanted,
        Ok(_) => false,
    }
}

fn count_of<M: Machine>(m: &mut M, path: &str, at: u64) -> Result<usize, CallStop> {
    m.read_at(path, at, &mut [0; 4])
}

fn is_piece<M: Machine>(m: &mut M, path: &str, at: u64, wanted: &[u8; 4]) -> bool {
    let mut piece = [b'_'; 4];
    m.read_at(path, at, &mut piece) == Ok(4) && piece == *wanted
}

fn is_rest<M: Machine>(
    m: &mut M,
    path: &str,
    count: Result<usize, CallStop>,
    wanted: &[u8; 5],
) -> bool {
    let mut piece = [b'_'; 5];
    fill(m, path, 1, &mut piece) == count && piece == *wanted
}

// Whether what comes of a step is what has to.
fn is_kept<M: Machine>(rt: &HostRuntime, m: &mut M, path: &str, step: &Step<'_>) -> bool
    requires { M.tells ≡ false }
{
    let alloc = rt.alloc();
    match step {
        Step::Whole(limit, text) => is_whole(m, alloc, path, *limit, text),
        Step::Missing(limit) => is_missing(m, alloc, path, *limit),
        Step::Unread(limit, wanted) => is_unread(m, alloc, path, *limit, *wanted),
        Step::Size(disk, wanted) => m.size(path, *disk) == *wanted,
        Step::Count(at, wanted) => count_of(m, path, *at) == *wanted,
        Step::Piece(at, wanted) => is_piece(m, path, *at, wanted),
        Step::Rest(count, wanted) => is_rest(m, path, *count, wanted),
        Step::Write(at, text, wanted) => m.write_at(path, *at, text.as_bytes()) == *wanted,
        Step::Sync(wanted) => m.sync(path) == *wanted,
        Step::Replace(text, wanted) => m.file_replace(path, text.as_bytes()) == *wanted,
        Step::Now(wanted) => m.now() == *wanted,
        Step::Puts(program, args, text) => puts(m, alloc, program, args, path, text),
        Step::Ends(line, wanted) => ends(m, alloc, line, wanted),
        Step::Refused(program, args) => is_refused(m, alloc, program, args, path),
        Step::Beside(end, deed) => is_done(rt, path, end, deed),
    }
}

// How many steps from the front on are kept.
fn count_kept<M: Machine>(rt: &HostRuntime, m: &mut M, path: &str, steps: &[Step<'_>]) -> usize
    requires { M.tells ≡ false }
{
    for (at, step) in steps.iter().enumerate() {
        if !is_kept(rt, m, path, step) {
            return at;
        }
    }
    steps.len()
}

// The same at a new file, which is removed then; none where that fails.
fn count_at_file<M: Machine>(
    rt: &HostRuntime,
    m: &mut M,
    name: &str,
    text: &str,
    steps: &[Step<'_>],
) -> usize
    requires { M.tells ≡ false }
{
    match make_file(rt, name, text) {
        Some(path) => {
            let count = count_kept(rt, m, path.as_str(), steps);
            if is_removed(rt, path.as_str()) {
                count
            } else {
                0
            }
        }
        None => 0,
    }
}

fn count_at<M: Machine>(rt: &HostRuntime, m: &mut M, case: &Case<'_>) -> usize
    requires { M.tells ≡ false }
{
    match case.place {
        Place::New(name, text) => count_at_file(rt, m, name, text, case.steps),
        Place::At(path) => count_kept(rt, m, path, case.steps),
    }
}

// The row of the first case that is not kept, and the step, both counted from 0.
fn wrong_case<M: Machine>(rt: &HostRuntime, m: &mut M, cases: &[Case<'_>]) -> Option<(usize, usize)>
    requires { M.tells ≡ false }
{
    for (row, case) in cases.iter().enumerate() {
        let count = count_at(rt, m, case);
        if count != case.steps.len() {
            return Some((row, count));
        }
    }
    None
}

fn begin(notes: &Notes<'_>, trouble: &Trouble) {
    match trouble {
        Trouble::Nothing => notes.begin(0, 0),
        Trouble::Step(step) => notes.begin(*step, 0),
        Trouble::Pipe(pipe) => notes.begin(0, *pipe),
    }
}

// Whether this is what was noted.
fn is_noted(rt: &HostRuntime, notes: &Notes<'_>, trace: &Trace) -> bool {
    match trace {
        Trace::Any => true,
        Trace::Asks(steps) => notes.steps() == *steps,
        Trace::NoChild => notes.child() == 0,
        Trace::Child => notes.child() != 0 && !has_process(rt, notes.child()),
    }
}

// The same of watched cases; the step is the number of all where they are kept and the notes are not.
fn wrong_watch<M: Machine>(
    rt: &HostRuntime,
    m: &mut M,
    notes: &Notes<'_>,
    watches: &[Watch<'_>],
) -> Option<(usize, usize)>
    requires { M.tells ≡ false }
{
    for (row, (trouble, case, trace)) in watches.iter().enumerate() {
        begin(notes, trouble);
        let count = count_at(rt, m, case);
        if count != case.steps.len() || !is_noted(rt, notes, trace) {
            return Some((row, count));
        }
    }
    None
}

// The row and the step that are the first not to be kept by the machine over this system.
pub fn first_wrong<R>(system: R, rt: &HostRuntime, cases: &[Case<'_>]) -> Option<(usize, usize)>
where
    R: Files + Processes<Started = SystemProcess> + Threads + Clock + Drop,
    R::File: FileExt + AsRawFd,
{
    let mut m = Linux::new(system, rt.alloc());
    wrong_case(rt, &mut m, cases)
}

// The same while the system is watched, where files are said to be what is at the path `alike`.
pub fn first_wrong_watched<R>(
    system: R,
    rt: &HostRuntime,
    watches: &[Watch<'_>],
    alike: Option<&str>,
) -> Option<(usize, usize)>
where
    R: Files + Processes<Started = SystemProcess> + Threads + Clock + Drop,
    R::File: FileExt + AsRawFd,
{
    let notes = Notes::new(alike);
    let watched = Watched {
        rt: system,
        notes: &notes,
    };
    let mut m = Linux::new(watched, rt.alloc());
    wrong_watch(rt, &mut m, &notes, watches)
}

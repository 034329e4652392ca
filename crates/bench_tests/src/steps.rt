use crate::setups::{DISK, FILE, MOUNT, SPARED, push_texts};
use machine::{
    CallStop, Child, ChildClass, Ended, Exit, Fault, Machine, Named, ReadStop, RunStop, Spares,
    Stop, World, fill,
};
use machine_bench::Bench;
use raw_writer::{PutJob, PutRefusal, Written, check_image, put_image};
use std::alloc::Global;
use undo_log::bytes_of;
use updater_text::{Digest, Items, NoMemory, Text};

// Paths, and what is there, if anything.
type Rows = &'static [(&'static str, Option<&'static [u8]>)];

// How an image is put on a disk: it is, or it has this SHA-256 and not the stated one, or a call of
// this kind fails.
pub enum PutEnd {
    Whole,
    Differs(&'static str),
    Fails(Fault),
}

// A call with the answer that it should have, or what the bench should be like.
pub enum Step {
    // The length of a disk or, where that is false, of a file.
    Size(&'static str, bool, Option<u64>),
    // How many bytes of a disk or file there are from a byte on, at most four, and these.
    ReadAt(&'static str, u64, usize, [u8; 4]),
    // The bytes of a file, where there are at most so many.
    ReadFile(&'static str, u64, Option<&'static [u8]>),
    // Whether bytes are written to the disk, or that fails.
    Write(u64, &'static [u8], bool),
    Sync(&'static str),
    // Whether a file is replaced, or that fails.
    Replace(&'static str, &'static [u8], bool),
    // What the clock says, where that does not fail.
    Now(Option<i64>),
    // How a child ends, how many bytes are kept of what it puts out, and whether there was more, where
    // that does not fail.
    Run(&'static str, &'static [&'static str], Option<(Ended, usize, bool)>),
    // How the boot program at `MOUNT` ends, and what it puts out, where that does not fail.
    Boot(&'static [&'static str], Option<(Ended, &'static str)>),
    // How an image is put on the disk, in pieces of two bytes, where this SHA-256 is stated of it.
    Put(&'static str, &'static str, PutEnd),
    // The value of a boot variable, if there is one.
    Variable(&'static str, Option<&'static str>),
    // The bytes of disks and files, and how many ranges are pending, writes and runs were made, calls
    // were numbered and calls failed.
    See(Rows, Rows, [u64; 5]),
}

// Whether a call is done, or fails, as it should.
fn is_done(answer: Result<(), CallStop>, done: bool) -> bool {
    match answer {
        Ok(()) => done,
        Err(CallStop::Failed) => !done,
        Err(CallStop::NoMemory) => false,
    }
}

fn has_size(m: &mut Bench, path: &str, disk: bool, size: Option<u64>) -> bool {
    match m.size(path, disk) {
        Ok(seen) => seen == size,
        Err(_) => false,
    }
}

// By one call, and until there are four or no more.
fn reads_at(m: &mut Bench, path: &str, at: u64, count: usize, bytes: &[u8; 4]) -> bool {
    let mut once = [0; 4];
    let mut full = [0; 4];
    let read = m.read_at(path, at, &mut once) == Ok(count);
    let filled = at < 9 && fill(m, path, at, &mut full) == Ok(count);
    read && filled && once == *bytes && full == *bytes
}

// Of a longer file the length is told.
fn reads_file(m: &mut Bench, alloc: Global, path: &str, limit: u64, bytes: Option<&[u8]>) -> bool {
    let length = match bytes {
        Some(bytes) => bytes.len() as u64,
        None => 0,
    };
    match m.file_read(alloc, path, limit) {
        Ok(Some(seen)) => {
            let same = bytes == Some(seen.as_slice());
            drop(seen);
            same && length <= limit
        }
        Ok(None) => bytes.is_none(),
        Err(ReadStop::TooLong { length: seen }) => limit < length && seen == length,
        Err(_) => false,
    }
}

fn writes(m: &mut Bench, at: u64, from: &[u8], done: bool) -> bool {
    let count = from.len() as u64;
    let fits = at < 9 && count < 9 && m.has_room(DISK, at + count);
    fits && is_done(m.write_at(DISK, at, from), done)
}

fn syncs(m: &mut Bench, path: &str) -> bool {
    m.sync(path).is_ok()
}

fn replaces(m: &mut Bench, path: &str, bytes: &[u8], done: bool) -> bool {
    is_done(m.file_replace(path, bytes), done)
}

fn tells(m: &mut Bench, seconds: Option<i64>) -> bool {
    match m.now() {
        Ok(seen) => seconds == Some(seen),
        Err(CallStop::Failed) => seconds.is_none(),
        Err(CallStop::NoMemory) => false,
    }
}

// A child must leave a disk, a folder and a file alone.
fn spare(spares: &mut Spares, alloc: Global) -> bool {
    push_texts(&mut spares.disks, alloc, &[SPARED])
        && push_texts(&mut spares.files, alloc, &["/etc/kept", FILE])
}

fn ends(ran: Result<Exit, RunStop>, end: Option<(Ended, usize, bool)>) -> bool {
    match ran {
        Ok(exit) => {
            let seen = (exit.ended, exit.out.len(), exit.cut);
            drop(exit);
            end == Some(seen)
        }
        Err(RunStop::Failed) => end.is_none(),
        Err(RunStop::NoMemory) => false,
    }
}

fn runs(
    m: &mut Bench,
    alloc: Global,
    program: Text,
    args: &[&str],
    end: Option<(Ended, usize, bool)>,
) -> bool {
    let mut child = Child {
        class: ChildClass::Helper,
        program,
        args: Items::new(alloc),
        env: Items::new(alloc),
        spares: Spares {
            disks: Items::new(alloc),
            files: Items::new(alloc),
            boot: true,
        },
    };
    let filled = push_texts(&mut child.args, alloc, args) && spare(&mut child.spares, alloc);
    let ran = m.run(alloc, &child);
    drop(child);
    ends(ran, end) && filled
}

// The same of a boot program, with all that it puts out.
fn boots(
    m: &mut Bench,
    alloc: Global,
    program: Text,
    args: &[&str],
    end: Option<(Ended, &str)>,
) -> bool {
    let mut child = Child {
        class: ChildClass::Boot,
        program,
        args: Items::new(alloc),
        env: Items::new(alloc),
        spares: Spares {
            disks: Items::new(alloc),
            files: Items::new(alloc),
            boot: false,
        },
    };
    let filled = push_texts(&mut child.args, alloc, args);
    let ran = m.run(alloc, &child);
    drop(child);
    puts_out(ran, end) && filled
}

fn puts_out(ran: Result<Exit, RunStop>, end: Option<(Ended, &str)>) -> bool {
    match (ran, end) {
        (Ok(exit), Some((ended, out))) => {
            let same = exit.ended == ended && exit.out.as_slice() == out.as_bytes();
            drop(exit);
            same
        }
        (Err(RunStop::Failed), None) => true,
        _ => false,
    }
}

fn boots_program(m: &mut Bench, alloc: Global, args: &[&str], end: Option<(Ended, &str)>) -> bool {
    match Text::new(alloc, MOUNT) {
        Ok(program) => boots(m, alloc, program, args, end),
        Err(NoMemory) => false,
    }
}

fn is_whole(written: &Written, stated: &Digest) -> bool {
    let blocks = [written.kept, written.borrowed, written.fetched];
    written.digest == *stated && blocks == [0; 3] && written.whole
}

fn ends_put(put: Result<Written, Stop<PutRefusal>>, digest: &Digest, end: &PutEnd) -> bool {
    match (put, end) {
        (Ok(written), PutEnd::Whole) => is_whole(&written, digest),
        (Err(Stop::Refused(PutRefusal::ImageDigest { stated, found })), PutEnd::Differs(seen)) => {
            stated == *digest && Digest::read(seen) == Some(found)
        }
        (Err(Stop::Outside(kind)), PutEnd::Fails(seen)) => kind == *seen,
        _ => false,
    }
}

// No block index is used.
fn puts_paths(
    m: &mut Bench,
    alloc: Global,
    image: Text,
    device: Text,
    stated: Digest,
    end: &PutEnd,
) -> bool {
    match check_image(alloc, m, image.as_str(), None, Some(device.as_str())) {
        Ok(size) => {
            let job = PutJob {
                image,
                device,
                size,
                digest: stated,
                index: None,
                active_device: None,
                active_index: None,
            };
            let put = put_image(m, &job, &mut [0; 2]);
            drop(job);
            ends_put(put, &stated, end)
        }
        Err(_) => false,
    }
}

fn puts_image(m: &mut Bench, alloc: Global, image: &str, stated: &str, end: &PutEnd) -> bool {
    match (
        Text::new(alloc, image),
        Text::new(alloc, DISK),
        Digest::read(stated),
    ) {
        (Ok(image), Ok(device), Some(stated)) => puts_paths(m, alloc, image, device, stated, end),
        _ => false,
    }
}

fn has_variable(m: &Bench, name: &str, value: Option<&str>) -> bool {
    match m.world() {
        Ok(world) => {
            let same = world.vars.get(name) == value;
            drop(world);
            same
        }
        Err(NoMemory) => false,
    }
}

fn runs_program(
    m: &mut Bench,
    alloc: Global,
    program: &str,
    args: &[&str],
    end: Option<(Ended, usize, bool)>,
) -> bool {
    match Text::new(alloc, program) {
        Ok(program) => runs(m, alloc, program, args, end),
        Err(NoMemory) => false,
    }
}

fn has_all(list: &[Named], rows: &[(&str, Option<&[u8]>)]) -> bool {
    for (path, bytes) in rows {
        if bytes_of(list, path) != *bytes {
            return false;
        }
    }
    true
}

fn counts(m: &Bench, world: &World) -> [u64; 5] {
    [
        world.pending.len() as u64,
        world.writes.len() as u64,
        world.runs.len() as u64,
        m.calls(),
        m.faults(),
    ]
}

fn sees(
    m: &Bench,
    disks: &[(&str, Option<&[u8]>)],
    files: &[(&str, Option<&[u8]>)],
    wanted: &[u64; 5],
) -> bool {
    match m.world() {
        Ok(world) => {
            let there = has_all(world.disks.as_slice(), disks)
                && has_all(world.files.as_slice(), files);
            let counted = counts(m, &world) == *wanted;
            drop(world);
            there && counted
        }
        Err(NoMemory) => false,
    }
}

fn is_right(m: &mut Bench, alloc: Global, step: &Step) -> bool {
    match step {
        Step::Size(path, disk, size) => has_size(m, path, *disk, *size),
        Step::ReadAt(path, at, count, bytes) => reads_at(m, path, *at, *count, bytes),
        Step::ReadFile(path, limit, bytes) => reads_file(m, alloc, path, *limit, *bytes),
        Step::Write(at, from, done) => writes(m, *at, from, *done),
        Step::Sync(path) => syncs(m, path),
        Step::Replace(path, bytes, done) => replaces(m, path, bytes, *done),
        Step::Now(seconds) => tells(m, *seconds),
        Step::Run(program, args, end) => runs_program(m, alloc, program, args, *end),
        Step::Boot(args, end) => boots_program(m, alloc, args, *end),
        Step::Put(image, stated, end) => puts_image(m, alloc, image, stated, end),
        Step::Variable(name, value) => has_variable(m, name, *value),
        Step::See(disks, files, counts) => sees(m, disks, files, counts),
    }
}

pub fn are_right(m: &mut Bench, alloc: Global, steps: &[Step]) -> bool {
    for step in steps {
        if !is_right(m, alloc, step) {
            return false;
        }
    }
    true
}

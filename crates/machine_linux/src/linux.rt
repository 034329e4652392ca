ghost use Rattle.std.specs.Prelude.{◌≡◌, ◌↔◌, ◌<◌, ◌^◌, ◌/◌, IfOk, IfSome, IsSome, false, pos};
ghost use Rattle.std.specs.Duration.{as_nanos};
ghost use Rattle.machine.specs.Past.{nothing_told};
ghost use Rattle.machine.specs.Calls.{Counted};
ghost use Rattle.machine_linux.specs.Reads.{PutFront};
ghost use Rattle.machine_linux.specs.Tally.{tally_after};

use crate::children::run_child;
use crate::opened::{Opened, open};
use crate::replacing::replace_file;
use crate::whole::{Found, length_of, read_whole};
use machine::{CallStop, Child, Exit, Machine, ReadStop, RunStop};
use std::alloc::Global;
use std::fs::OpenOptions;
use std::marker::Model;
use std::os::fd::AsRawFd;
use std::os::unix::fs::FileExt;
use std::process::{Processes, SystemProcess};
use std::rt::Files;
use std::thread::Threads;
use std::time::{Clock, Duration, SystemTime, UNIX_EPOCH};
use updater_text::Items;

/// A machine over the files, devices and programs of a system. It tells no world. Contracts see its
/// two counts.
///
/// A path names nothing where the system answers ENOENT or ENOTDIR; to write or sync there is a fault.
/// Every other error of the system is a fault too, as for a directory or where a file ends before the
/// length that it had when it was opened, but for three: where the end of an open file cannot be
/// sought its length counts as not known, and advice that is not taken and a file beside another that
/// cannot be removed are passed over. Every file counts as a disk.
///
/// It keeps open the file that it read at an offset last, and the one that it wrote last, so that
/// a copy of a whole image opens each once. A file is let go where a call on it fails, before a file
/// is put in its place, and before any child is run. Where a write ends at a
/// whole MiB, the kernel is advised that this MiB is not needed any more, on which Linux begins to write
/// it back (though it does not promise to), so that a sync has little to wait for.
///
/// A file that is to replace another is written beside it, as a new file with a number and `.new` after
/// the name, and takes over its owner and mode where the system allows that. A child has the variables
/// of this process and those that it is given, no input, and no other open file.
#[derive(Drop)]
pub struct Linux<R: Files + Drop> {
    rt: R,
    alloc: Global,
    source: Option<Opened<R::File>>,
    target: Option<Opened<R::File>>,
    faults: u64,
    wants: u64,
}

impl<R: Files + Drop> Model for Linux<R> {
    ghost use Rattle.machine_linux.specs.Tally.{Tally};

    ghost Value = { Tally };

    ghost view = { λ m. record { faults = m.faults; wants = m.wants } };
}

impl<R: Files + Drop> Linux<R> {
    /// The machine over the runtime's files, with no call made yet. It takes no memory.
    pub fn new(rt: R, alloc: Global) -> Linux<R>
        ensures { result ≡ record { faults = 0; wants = 0 } }
    {
        Linux {
            rt,
            alloc,
            source: None,
            target: None,
            faults: 0,
            wants: 0,
        }
    }

    // Counts a call that failed or was out of memory, and hands its outcome on.
    fn count_outcome<T>(&mut self, outcome: Result<T, CallStop>) -> Result<T, CallStop>
        ensures same { result ≡ outcome }
        ensures tally { self.new ≡ tally_after self.old outcome }
        ensures counts { Counted self.old.faults self.new.faults self.old.wants self.new.wants result }
    {
        match &outcome {
            Ok(_) => {}
            Err(CallStop::Failed) => self.faults = self.faults.saturating_add(1),
            Err(CallStop::NoMemory) => self.wants = self.wants.saturating_add(1),
        }
        outcome
    }

    // The file to read from, which is taken out; None where the path names nothing.
    fn take_source(&mut self, path: &str) -> Result<Option<Opened<R::File>>, CallStop>
        ensures place { IfOk result (λ found. IfSome found (λ opened. opened.path ≡ path.now)) }
        ensures tally { self.new ≡ self.old }
    {
        match self.source.take() {
            Some(source) if source.is_at(path) => Ok(Some(source)),
            _ => open(&self.rt, self.alloc, OpenOptions::new().read(true), path),
        }
    }

    // The file to write to, which is taken out. It is not made where there is none.
    fn take_target(&mut self, path: &str) -> Result<Opened<R::File>, CallStop>
        ensures place { IfOk result (λ opened. opened.path ≡ path.now) }
        ensures tally { self.new ≡ self.old }
    {
        match self.target.take() {
            Some(target) if target.is_at(path) => Ok(target),
            _ => {
                let opened = open(&self.rt, self.alloc, OpenOptions::new().write(true), path)?;
                opened.ok_or(CallStop::Failed)
            }
        }
    }
}

impl<R: Files + Drop> Linux<R>
where
    R::File: FileExt + AsRawFd,
{
    // Reads from the file at the path, and keeps it open.
    fn read_some(&mut self, path: &str, at: u64, into: &mut [u8]) -> Result<usize, CallStop>
        ensures put { IfOk result (PutFront into.old into.new) }
        ensures tally { self.new ≡ self.old }
    {
        let Some(source) = self.take_source(path)? else {
            return Ok(0);
        };
        let Ok(count) = source.read_at(at, into) else {
            return Err(CallStop::Failed);
        };
        self.source = Some(source);
        Ok(count)
    }

    // Writes all the bytes to the file at the path, and keeps it open.
    fn write_all(&mut self, path: &str, at: u64, from: &[u8]) -> Result<(), CallStop>
        ensures { self.new ≡ self.old }
    {
        let target = self.take_target(path)?;
        if target.write_at(at, from).is_err() {
            return Err(CallStop::Failed);
        }
        self.target = Some(target);
        Ok(())
    }

    // Syncs the file at the path, and keeps it open.
    fn sync_target(&mut self, path: &str) -> Result<(), CallStop>
        ensures { self.new ≡ self.old }
    {
        let target = self.take_target(path)?;
        if target.sync().is_err() {
            return Err(CallStop::Failed);
        }
        self.target = Some(target);
        Ok(())
    }

    // Lets go of what is kept open at the path.
    fn let_go(&mut self, path: &str)
        ensures { self.new ≡ self.old }
    {
        match self.source.take() {
            Some(source) if !source.is_at(path) => self.source = Some(source),
            _ => {}
        }
        match self.target.take() {
            Some(target) if !target.is_at(path) => self.target = Some(target),
            _ => {}
        }
    }
}

// The whole seconds of a duration; None from 2^63 seconds on.
fn whole_seconds(duration: Duration) -> Option<i64>
    ensures fits { IsSome result ↔ (as_nanos duration / 1_000_000_000 < 2 ^ 63) }
    ensures seconds { IfSome result (λ seconds. seconds ≡ pos (as_nanos duration / 1_000_000_000)) }
{
    i64::try_from(duration.as_secs()).ok()
}

// The seconds since 1970 that a clock tells.
fn read_clock<C: Clock>(clock: &C) -> Result<i64, CallStop> {
    let Ok(time) = SystemTime::now(clock) else {
        return Err(CallStop::Failed);
    };
    let Ok(since) = time.duration_since(UNIX_EPOCH) else {
        return Err(CallStop::Failed);
    };
    whole_seconds(since).ok_or(CallStop::Failed)
}

impl<R: Files + Processes<Started = SystemProcess> + Threads + Clock + Drop> Machine for Linux<R>
where
    R::File: FileExt + AsRawFd,
{
    ghost tells = { false };

    ghost past = { λ _. nothing_told };

    ghost faults = { λ m. m.faults };

    ghost wants = { λ m. m.wants };

    fn file_read(
        &mut self,
        alloc: Global,
        path: &str,
        limit: u64,
    ) -> Result<Option<Items<u8>>, ReadStop> {
        let outcome = read_whole(&self.rt, alloc, path, limit);
        match self.count_outcome(outcome) {
            Ok(Found::Missing) => Ok(None),
            Ok(Found::Whole(bytes)) => Ok(Some(bytes)),
            Ok(Found::TooLong(length)) => Err(ReadStop::TooLong { length }),
            Err(CallStop::Failed) => Err(ReadStop::Failed),
            Err(CallStop::NoMemory) => Err(ReadStop::NoMemory),
        }
    }

    fn size(&mut self, path: &str, _disk: bool) -> Result<Option<u64>, CallStop> {
        let outcome = length_of(&self.rt, path);
        self.count_outcome(outcome)
    }

    fn read_at(&mut self, path: &str, at: u64, into: &mut [u8]) -> Result<usize, CallStop> {
        let outcome = self.read_some(path, at, into);
        self.count_outcome(outcome)
    }

    fn write_at(&mut self, path: &str, at: u64, from: &[u8]) -> Result<(), CallStop> {
        let outcome = self.write_all(path, at, from);
        self.count_outcome(outcome)
    }

    fn sync(&mut self, path: &str) -> Result<(), CallStop> {
        let outcome = self.sync_target(path);
        self.count_outcome(outcome)
    }

    fn file_replace(&mut self, path: &str, bytes: &[u8]) -> Result<(), CallStop> {
        self.let_go(path);
        let outcome = replace_file(&self.rt, self.alloc, path, bytes);
        self.count_outcome(outcome)
    }

    fn run(&mut self, alloc: Global, child: &Child) -> Result<Exit, RunStop> {
        self.source = None;
        self.target = None;
        let outcome = run_child(&self.rt, alloc, child);
        match self.count_outcome(outcome) {
            Ok(exit) => Ok(exit),
            Err(CallStop::Failed) => Err(RunStop::Failed),
            Err(CallStop::NoMemory) => Err(RunStop::NoMemory),
        }
    }

    fn now(&mut self) -> Result<i64, CallStop> {
        let outcome = read_clock(&self.rt);
        self.count_outcome(outcome)
    }
}

ghost use Rattle.std.specs.Prelude.{◌≡◌, ◌<◌, IfOk, IsTrue, None, OnOk, length, true};
ghost use Rattle.machine.specs.Frames.{ReplacesOnly};
ghost use Rattle.machine.specs.Past.{Fails, world_now};
ghost use Rattle.machine.specs.Stops.{StopCounted, stop_fault};
ghost use Rattle.machine.specs.World.{with_file};
ghost use Rattle.system_conf.specs.Reads.{system_configuration};
ghost use Rattle.boot_backends.specs.Marked.{is_boot_name};
ghost use Rattle.slot_marks.specs.Noting.{MarksAndPuts, NotedBy, NothingRefused, OnlyBoot, OnlyStatus, Prepares, activated_text};

use crate::MarkRefusal;
use crate::naming::{Action, boot_stop, mark_name};
use machine::{CallStop, Fault, Machine, Stop};
use slot_status::StatusBook;
use status_file::{StatusRead, read_status, status_text};
use std::alloc::Global;
use system_conf::System;
use updater_text::{Items, NoMemory};

/// The new text of the status file, and whether the one that is there could not be read.
#[derive(Drop)]
pub struct Noted {
    pub text: Items<u8>,
    pub unread: bool,
}

// ---- before the mark

// The text that notes in a book that the slot at a place was activated.
fn activated_text(
    alloc: Global,
    system: &System,
    book: &mut StatusBook,
    at: usize,
    now: i64,
) -> Result<Items<u8>, NoMemory>
    requires all { length book.old ≡ length system.now.slots }
    requires at { at < length system.now.slots }
    ensures { IfOk result (λ text. text ≡ activated_text system.now.slots book.old at now) }
{
    match book.activate(at, now) {
        Ok(()) => status_text(alloc, system, book),
        Err(_) => Err(NoMemory),
    }
}

// What is to be noted by what was read, or why the slot's record may not change.
fn noted_by(
    alloc: Global,
    system: &System,
    read: StatusRead,
    at: usize,
    now: i64,
) -> Result<Noted, Stop<MarkRefusal>>
    requires all { length read.book ≡ length system.now.slots }
    requires at { at < length system.now.slots }
    ensures noted { NotedBy system.now.slots read.book read.unread at now result }
    ensures fails { stop_fault result ≡ None }
{
    let StatusRead { mut book, unread } = read;
    if let Err(refusal) = book.ready(at, now) {
        return Err(Stop::Refused(MarkRefusal::Status(refusal)));
    }
    match activated_text(alloc, system, &mut book, at, now) {
        Ok(text) => Ok(Noted { text, unread }),
        Err(_) => Err(Stop::NoMemory),
    }
}

/// Reads the status file and the clock, and makes the text that notes that the slot at a place was
/// activated.
pub fn prepare<M: Machine>(
    alloc: Global,
    m: &mut M,
    system: &System,
    path: &str,
    at: usize,
) -> Result<Noted, Stop<MarkRefusal>>
    requires { at < length system.now.slots }
    ensures prepares { Prepares M.tells system.now.slots path.now at (M.past m.old) (M.past m.new) result }
    ensures refuses { OnlyStatus result }
    ensures counts { StopCounted (M.faults m.old) (M.faults m.new) (M.wants m.old) (M.wants m.new) result }
{
    let read = match read_status(alloc, m, system, path) {
        Ok(read) => read,
        Err(CallStop::Failed) => return Err(Stop::Outside(Fault::Read)),
        Err(CallStop::NoMemory) => return Err(Stop::NoMemory),
    };
    match m.now() {
        Ok(now) => noted_by(alloc, system, read, at, now),
        Err(CallStop::Failed) => Err(Stop::Outside(Fault::Clock)),
        Err(CallStop::NoMemory) => Err(Stop::NoMemory),
    }
}

// ---- the mark, and then the new file

// Puts a text in the place of a file, by one call.
fn put_text<M: Machine>(m: &mut M, path: &str, text: &[u8]) -> Result<(), Stop<MarkRefusal>>
    ensures replaces { ReplacesOnly M.tells path.now text.now (M.past m.old) (M.past m.new) }
    ensures put { IsTrue M.tells → OnOk result (world_now (M.past m.new) ≡ with_file (world_now (M.past m.old)) path.now text.now) }
    ensures refuses { NothingRefused result }
    ensures fails { Fails M.tells (M.past m.old) (M.past m.new) (stop_fault result) }
    ensures counts { StopCounted (M.faults m.old) (M.faults m.new) (M.wants m.old) (M.wants m.new) result }
{
    match m.file_replace(path, text) {
        Ok(()) => Ok(()),
        Err(CallStop::Failed) => Err(Stop::Outside(Fault::Replace)),
        Err(CallStop::NoMemory) => Err(Stop::NoMemory),
    }
}

/// Makes a bootname primary, and then puts the text in the place of the status file.
pub fn mark_and_put<M: Machine>(
    alloc: Global,
    m: &mut M,
    system: &System,
    name: &str,
    path: &str,
    text: &[u8],
) -> Result<(), Stop<MarkRefusal>>
    requires { is_boot_name system.now.slots name.now ≡ true }
    ensures marks { MarksAndPuts M.tells (system_configuration system.now) name.now path.now text.now (M.past m.old) (M.past m.new) result }
    ensures refuses { OnlyBoot result }
    ensures counts { StopCounted (M.faults m.old) (M.faults m.new) (M.wants m.old) (M.wants m.new) result }
{
    match mark_name(alloc, m, system, Action::Active, name) {
        Ok(()) => put_text(m, path, text),
        Err(stop) => Err(boot_stop(stop)),
    }
}

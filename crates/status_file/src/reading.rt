ghost use Rattle.std.specs.Prelude.{◌≡◌, IfOk, IsTrue, None, Some, length};
ghost use Rattle.machine.specs.Calls.{call_fault};
ghost use Rattle.machine.specs.Frames.{Unchanged};
ghost use Rattle.machine.specs.Past.{Fails, world_now};
ghost use Rattle.machine.specs.Runs.{ReadsOnce};
ghost use Rattle.machine.specs.World.{file};
ghost use Rattle.running_system.specs.Running.{FaultsCounted};
ghost use Rattle.system_conf.specs.Reads.{system_configuration};
ghost use Rattle.status_file.specs.Status.{IsBlank, IsReadOf, IsStored, ReadsStatus, names_in};

use machine::{CallStop, Fault, Machine, ReadStop};
use slot_status::{StatusBook, read_book};
use std::alloc::Global;
use system_conf::System;
use updater_text::{Lack, Text};

/// How many bytes of a status file are read.
const STATUS_LIMIT: u64 = 1_048_576;

/// What was read of a status file: one record for each slot, blank ones where there is no file or it
/// cannot be read; and whether there is one that cannot be read, since it has more than 1,048,576
/// bytes or is no key file.
#[derive(Drop)]
pub struct StatusRead {
    pub book: StatusBook,
    pub unread: bool,
}

// What is known where nothing was read.
fn blank(alloc: Global, system: &System, unread: bool) -> Result<StatusRead, CallStop>
    ensures blank { IfOk result (IsBlank system.now.slots unread) }
    ensures fails { call_fault Fault.Read result ≡ None }
{
    match StatusBook::empty(alloc, system.slots.len()) {
        Ok(book) => Ok(StatusRead { book, unread }),
        Err(_) => Err(CallStop::NoMemory),
    }
}

// What these bytes of a status file say of the slots of these names.
fn status_by(
    alloc: Global,
    system: &System,
    names: &[Text],
    bytes: &[u8],
) -> Result<StatusRead, CallStop>
    requires { names.now ≡ names_in system.now.slots }
    ensures read { IfOk result (IsReadOf system.now.slots (Some bytes.now)) }
    ensures fails { call_fault Fault.Read result ≡ None }
{
    match read_book(alloc, names, bytes) {
        Ok(book) => Ok(StatusRead {
            book,
            unread: false,
        }),
        Err(Lack::Refused(_)) => blank(alloc, system, true),
        Err(Lack::NoMemory) => Err(CallStop::NoMemory),
    }
}

// What these bytes of a status file say.
fn status_in(alloc: Global, system: &System, bytes: &[u8]) -> Result<StatusRead, CallStop>
    ensures read { IfOk result (IsReadOf system.now.slots (Some bytes.now)) }
    ensures fails { call_fault Fault.Read result ≡ None }
{
    match system.slot_names(alloc) {
        Ok(names) => status_by(alloc, system, &names, bytes),
        Err(_) => Err(CallStop::NoMemory),
    }
}

/// What the status file at this path says of the slots, by one call. It gives `Failed` where the read
/// fails, and `NoMemory` where memory is out.
pub fn read_status<M: Machine>(
    alloc: Global,
    m: &mut M,
    system: &System,
    path: &str,
) -> Result<StatusRead, CallStop>
    ensures unchanged { Unchanged M.tells (M.past m.old) (M.past m.new) }
    ensures once { IsTrue M.tells → ReadsOnce path.now (M.past m.old) (M.past m.new) }
    ensures answers { let there = file (world_now (M.past m.old)) path.now in
        IsTrue M.tells → IfOk result (IsReadOf system.now.slots there) }
    ensures all { IfOk result (λ read. length read.book ≡ length system.now.slots) }
    ensures fails { Fails M.tells (M.past m.old) (M.past m.new) (call_fault Fault.Read result) }
    ensures counts { FaultsCounted (M.faults m.old) (M.faults m.new) (M.wants m.old) (M.wants m.new) result }
{
    match m.file_read(alloc, path, STATUS_LIMIT) {
        Ok(Some(bytes)) => status_in(alloc, system, bytes.as_slice()),
        Ok(None) => blank(alloc, system, false),
        Err(ReadStop::TooLong { .. }) => blank(alloc, system, true),
        Err(ReadStop::Failed) => Err(CallStop::Failed),
        Err(ReadStop::NoMemory) => Err(CallStop::NoMemory),
    }
}

/// What the status file of the system says of its slots, by one call at most; a blank record of each
/// where the system has none. It gives `Failed` where the read fails, and `NoMemory` where memory is
/// out.
pub fn stored_status<M: Machine>(
    alloc: Global,
    m: &mut M,
    system: &System,
) -> Result<StatusRead, CallStop>
    ensures unchanged { Unchanged M.tells (M.past m.old) (M.past m.new) }
    ensures once { IsTrue M.tells → ReadsStatus (system_configuration system.now) (M.past m.old) (M.past m.new) }
    ensures answers { IsTrue M.tells → IfOk result (IsStored (system_configuration system.now) (world_now (M.past m.old))) }
    ensures all { IfOk result (λ read. length read.book ≡ length system.now.slots) }
    ensures fails { Fails M.tells (M.past m.old) (M.past m.new) (call_fault Fault.Read result) }
    ensures counts { FaultsCounted (M.faults m.old) (M.faults m.new) (M.wants m.old) (M.wants m.new) result }
{
    match &system.status_file {
        Some(path) => read_status(alloc, m, system, path.as_str()),
        None => blank(alloc, system, false),
    }
}

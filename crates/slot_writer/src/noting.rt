ghost use Rattle.std.specs.Prelude.{◌≡◌, ◌<◌, ℕ, IfOk, IsTrue, List, Ok, OnOk, length};
ghost use Rattle.machine.specs.Calls.{call_fault};
ghost use Rattle.machine.specs.Frames.{ReplacesOnly, Unchanged};
ghost use Rattle.machine.specs.Past.{Fails, world_now};
ghost use Rattle.machine.specs.Stops.{StopCounted, stop_fault};
ghost use Rattle.machine.specs.World.{with_file};
ghost use Rattle.raw_writer.specs.Putting.{HasLength};
ghost use Rattle.running_system.specs.Running.{FaultsCounted};
ghost use Rattle.slot_status.specs.Changes.{begun};
ghost use Rattle.slot_status.specs.Records.{book_of};
ghost use Rattle.slot_status.specs.Texts.{book_text};
ghost use Rattle.status_file.specs.Status.{book_in, is_unread, names_in, status_bytes};
ghost use Rattle.system_conf.specs.Reads.{system_configuration};
ghost use Rattle.slot_writer.specs.Checks.{IfRefused, IsAbout, SlotCheck};
ghost use Rattle.slot_writer.specs.Noting.{IsNote, NoneRefused, Steps, image_refusal, with_text};

use crate::SlotRefusal;
use machine::{CallStop, Fault, Machine, Stop};
use raw_writer::PutRefusal;
use slot_status::StatusBook;
use status_file::{StatusRead, status_text, stored_status};
use std::alloc::Global;
use system_conf::System;
use updater_text::{Items, NoMemory};

/// What the status file is to say before a slot is written: its new text, where anything is known of
/// the slot; and whether there is a status file that could not be read.
#[derive(Drop)]
pub struct Note {
    pub text: Option<Items<u8>>,
    pub book_unread: bool,
}

// ---- the text

// The text that notes in a book that an update of the slot at a place has begun.
fn begun_text(
    alloc: Global,
    system: &System,
    book: &mut StatusBook,
    at: usize,
) -> Result<Items<u8>, NoMemory>
    requires all { length book.old ≡ length system.now.slots }
    requires at { at < length system.now.slots }
    ensures text { IfOk result (λ text. text ≡ book_text (names_in system.now.slots) (begun at book.old)) }
    ensures reads { IfOk result (λ text. book_of (names_in system.now.slots) text ≡ Ok (begun at book.old)) }
{
    match book.begin(at) {
        Ok(()) => status_text(alloc, system, book),
        Err(_) => Err(NoMemory),
    }
}

// What is to be noted by what was read.
fn note_of(alloc: Global, system: &System, read: StatusRead, at: usize) -> Result<Note, NoMemory>
    requires all { length read.book ≡ length system.now.slots }
    requires at { at < length system.now.slots }
    ensures { IfOk result (IsNote system.now.slots read.book read.unread at) }
{
    let StatusRead { mut book, unread } = read;
    if !book.slot_record(at).is_known() {
        return Ok(Note {
            text: None,
            book_unread: unread,
        });
    }
    match begun_text(alloc, system, &mut book, at) {
        Ok(text) => Ok(Note {
            text: Some(text),
            book_unread: unread,
        }),
        Err(_) => Err(NoMemory),
    }
}

/// Reads the status file, where the system has one, and makes the text that notes that an update of
/// the slot at a place has begun.
pub fn prepare<M: Machine>(
    alloc: Global,
    m: &mut M,
    system: &System,
    at: usize,
) -> Result<Note, CallStop>
    requires { at < length system.now.slots }
    ensures unchanged { Unchanged M.tells (M.past m.old) (M.past m.new) }
    ensures note { let slots = system.now.slots in
        let there = status_bytes (system_configuration system.now) (world_now (M.past m.old)) in
        IsTrue M.tells → IfOk result (IsNote slots (book_in slots there) (is_unread slots there) at) }
    ensures fails { Fails M.tells (M.past m.old) (M.past m.new) (call_fault Fault.Read result) }
    ensures counts { FaultsCounted (M.faults m.old) (M.faults m.new) (M.wants m.old) (M.wants m.new) result }
{
    match stored_status(alloc, m, system) {
        Ok(read) => match note_of(alloc, system, read, at) {
            Ok(note) => Ok(note),
            Err(_) => Err(CallStop::NoMemory),
        },
        Err(stop) => Err(stop),
    }
}

// ---- the replacement

// Refuses an image that is the file at the path, where the file's new text is shorter than it.
fn check_text<M: Machine>(
    m: &mut M,
    path: &str,
    text: &[u8],
    image: &str,
    size: u64,
) -> Result<(), Stop<SlotRefusal>>
    requires { HasLength M.tells (M.past m.old) image.now size }
    ensures checks { let next = with_file (world_now (M.past m.old)) path.now text.now in
        SlotCheck M.tells (image_refusal image.now size next) (M.past m.old) (M.past m.new) result }
    ensures about { (at : ℕ) (image : List ℕ) → IfRefused result (IsAbout at image) }
    ensures counts { StopCounted (M.faults m.old) (M.faults m.new) (M.wants m.old) (M.wants m.new) result }
{
    let found = text.len() as u64;
    if image != path || size <= found {
        return Ok(());
    }
    match m.size(image, true) {
        Ok(Some(_)) => Ok(()),
        Ok(None) => Err(Stop::Refused(SlotRefusal::Image(PutRefusal::ImageSize {
            stated: size,
            found,
        }))),
        Err(CallStop::Failed) => Err(Stop::Outside(Fault::Size)),
        Err(CallStop::NoMemory) => Err(Stop::NoMemory),
    }
}

// Puts a text in the place of a file, by one call.
fn replace<M: Machine>(m: &mut M, path: &str, text: &[u8]) -> Result<(), Stop<SlotRefusal>>
    ensures replaces { ReplacesOnly M.tells path.now text.now (M.past m.old) (M.past m.new) }
    ensures put { let next = with_file (world_now (M.past m.old)) path.now text.now in
        IsTrue M.tells → OnOk result (world_now (M.past m.new) ≡ next) }
    ensures none { NoneRefused result }
    ensures fails { Fails M.tells (M.past m.old) (M.past m.new) (stop_fault result) }
    ensures counts { StopCounted (M.faults m.old) (M.faults m.new) (M.wants m.old) (M.wants m.new) result }
{
    match m.file_replace(path, text) {
        Ok(()) => Ok(()),
        Err(CallStop::Failed) => Err(Stop::Outside(Fault::Replace)),
        Err(CallStop::NoMemory) => Err(Stop::NoMemory),
    }
}

// Puts a text in the place of the file at the path, unless an image that is this file is refused.
fn put_text<M: Machine>(
    m: &mut M,
    path: &str,
    text: &[u8],
    image: &str,
    size: u64,
) -> Result<(), Stop<SlotRefusal>>
    requires { HasLength M.tells (M.past m.old) image.now size }
    ensures steps { let next = with_file (world_now (M.past m.old)) path.now text.now in
        Steps M.tells (image_refusal image.now size next) next (M.past m.old) (M.past m.new) result }
    ensures about { (at : ℕ) (image : List ℕ) → IfRefused result (IsAbout at image) }
    ensures counts { StopCounted (M.faults m.old) (M.faults m.new) (M.wants m.old) (M.wants m.new) result }
{
    match check_text(m, path, text, image, size) {
        Ok(()) => replace(m, path, text),
        Err(stop) => Err(stop),
    }
}

/// Puts the new text of a note in the place of the status file, where there is one, by one call;
/// `ImageSize` where an image of this size is the status file, and the new text is shorter.
pub fn put_note<M: Machine>(
    m: &mut M,
    system: &System,
    note: &Note,
    image: &str,
    size: u64,
) -> Result<(), Stop<SlotRefusal>>
    requires { HasLength M.tells (M.past m.old) image.now size }
    ensures steps { let next = with_text system.now.status_file note.now.text (world_now (M.past m.old)) in
        Steps M.tells (image_refusal image.now size next) next (M.past m.old) (M.past m.new) result }
    ensures about { (at : ℕ) (image : List ℕ) → IfRefused result (IsAbout at image) }
    ensures counts { StopCounted (M.faults m.old) (M.faults m.new) (M.wants m.old) (M.wants m.new) result }
{
    match &system.status_file {
        Some(path) => match &note.text {
            Some(text) => put_text(m, path.as_str(), text.as_slice(), image, size),
            None => Ok(()),
        },
        None => Ok(()),
    }
}

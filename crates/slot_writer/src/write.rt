ghost use Rattle.std.specs.Prelude.{◌≡◌, ◌<◌, IfOk, IsTrue, Ok, Some, None, length, option_map};
ghost use Rattle.machine.specs.Calls.{WriteFits};
ghost use Rattle.machine.specs.Past.{world_now};
ghost use Rattle.machine.specs.Stops.{StopCounted};
ghost use Rattle.raw_writer.specs.Checking.{check_of};
ghost use Rattle.raw_writer.specs.Putting.{HasLength};
ghost use Rattle.running_system.specs.Running.{RunningKept, what_runs};
ghost use Rattle.status_file.specs.Status.{is_unread, status_bytes};
ghost use Rattle.status_file.specs.Truth.{TruthKept, stored_book};
ghost use Rattle.system_conf.specs.Reads.{system_configuration};
ghost use Rattle.slot_writer.specs.Checks.{IfRefused, IsAbout, NamesSlot};
ghost use Rattle.slot_writer.specs.Noting.{IsNote};
ghost use Rattle.slot_writer.specs.Slots.{PutStops, Puts, device_at, image_stop, place_answer, put_answer, slot_answer, whole_answer, written_answer};

use crate::checks::check_slot;
use crate::noting::{Note, prepare, put_note};
use crate::{SlotRefusal, SlotWritten};
use machine::{CallStop, Fault, Machine, Stop};
use raw_writer::{PutRefusal, WholeStop, check_image, write_whole};
use std::alloc::Global;
use system_conf::{Slot, System};
use updater_text::{Digest, Text};

/// How many bytes are read and written at a time.
const PIECE: usize = 65_536;

// A stop of the image's check.
fn image_stop(stop: Stop<PutRefusal>) -> Stop<SlotRefusal>
    ensures { result ≡ image_stop stop }
{
    match stop {
        Stop::Refused(refusal) => Stop::Refused(SlotRefusal::Image(refusal)),
        Stop::Outside(kind) => Stop::Outside(kind),
        Stop::NoMemory => Stop::NoMemory,
    }
}

// What a whole write of this size to the slot at this place comes to. An image that grew shorter
// since its check is of another size than that.
fn whole_answer(
    slot: usize,
    size: u64,
    book_unread: bool,
    written: Result<Digest, WholeStop>,
) -> Result<SlotWritten, Stop<SlotRefusal>>
    ensures { result ≡ whole_answer slot size book_unread written }
{
    match written {
        Ok(digest) => Ok(SlotWritten {
            slot,
            size,
            digest,
            book_unread,
        }),
        Err(WholeStop::Outside(kind)) => Err(Stop::Outside(kind)),
        Err(WholeStop::Short { found }) => {
            Err(Stop::Refused(SlotRefusal::Image(PutRefusal::ImageSize {
                stated: size,
                found,
            })))
        }
        Err(WholeStop::NoMemory) => Err(Stop::NoMemory),
    }
}

// The device of the slot at this place.
fn device_at(slots: &[Slot], at: usize) -> &str
    requires { at < length slots.now }
    ensures { result.now ≡ device_at slots.now at }
{
    slots[at].device.as_str()
}

// Notes in the status file that an update of the slot at this place has begun, and then writes so much
// of the image to the slot's device.
fn write_noted<M: Machine>(
    m: &mut M,
    system: &System,
    slot: usize,
    image: &str,
    size: u64,
    note: &Note,
    buffer: &mut [u8],
) -> Result<SlotWritten, Stop<SlotRefusal>>
    requires slot { slot < length system.now.slots }
    requires buffer { length buffer.old ≡ 65536 }
    requires image { HasLength M.tells (M.past m.old) image.now size }
    requires device { WriteFits M.tells (M.past m.old) (device_at system.now.slots slot) size }
    requires note { let conf = system_configuration system.now in
        let unread = is_unread conf.slots (status_bytes conf (world_now (M.past m.old))) in
        IsTrue M.tells → IsNote conf.slots (stored_book conf (world_now (M.past m.old))) unread slot note.now }
    ensures put { let conf = system_configuration system.now in
        let answer = written_answer conf slot image.now (world_now (M.past m.old)) size in
        Puts M.tells conf image.now answer (M.past m.old) (M.past m.new) result }
    ensures about { IfRefused result (IsAbout slot image.now) }
    ensures counts { StopCounted (M.faults m.old) (M.faults m.new) (M.wants m.old) (M.wants m.new) result }
{
    match put_note(m, system, note, image, size) {
        Ok(()) => {
            let device = device_at(system.slots.as_slice(), slot);
            let written = write_whole(m, image, device, size, buffer);
            whole_answer(slot, size, note.book_unread, written)
        }
        Err(stop) => Err(stop),
    }
}

// Writes an image of this size, as its check found it, to the slot at this place.
fn write_checked<M: Machine>(
    alloc: Global,
    m: &mut M,
    system: &System,
    slot: usize,
    image: &str,
    size: u64,
) -> Result<SlotWritten, Stop<SlotRefusal>>
    requires slot { slot < length system.now.slots }
    requires checked { let device = device_at system.now.slots slot in
        IsTrue M.tells → check_of (world_now (M.past m.old)) image.now None (Some device) ≡ Ok size }
    ensures put { let conf = system_configuration system.now in
        let answer = written_answer conf slot image.now (world_now (M.past m.old)) size in
        Puts M.tells conf image.now answer (M.past m.old) (M.past m.new) result }
    ensures about { IfRefused result (IsAbout slot image.now) }
    ensures counts { StopCounted (M.faults m.old) (M.faults m.new) (M.wants m.old) (M.wants m.new) result }
{
    let mut buffer = match vec![in alloc; 0u8; PIECE] {
        Ok(buffer) => buffer,
        Err(_) => return Err(Stop::NoMemory),
    };
    match prepare(alloc, m, system, slot) {
        Ok(note) => write_noted(m, system, slot, image, size, &note, buffer.as_mut_slice()),
        Err(CallStop::Failed) => Err(Stop::Outside(Fault::Read)),
        Err(CallStop::NoMemory) => Err(Stop::NoMemory),
    }
}

// Checks the image, and writes it to the slot at this place.
fn write_on<M: Machine>(
    alloc: Global,
    m: &mut M,
    system: &System,
    slot: usize,
    image: &str,
) -> Result<SlotWritten, Stop<SlotRefusal>>
    requires { slot < length system.now.slots }
    ensures put { let conf = system_configuration system.now in
        let answer = put_answer conf slot image.now (world_now (M.past m.old)) in
        Puts M.tells conf image.now answer (M.past m.old) (M.past m.new) result }
    ensures about { IfRefused result (IsAbout slot image.now) }
    ensures counts { StopCounted (M.faults m.old) (M.faults m.new) (M.wants m.old) (M.wants m.new) result }
{
    let device = device_at(system.slots.as_slice(), slot);
    match check_image(alloc, m, image, None, Some(device)) {
        Ok(size) => write_checked(alloc, m, system, slot, image, size),
        Err(stop) => Err(image_stop(stop)),
    }
}

// Writes the image to the slot at this place, unless that is refused.
fn write_at<M: Machine>(
    alloc: Global,
    m: &mut M,
    system: &System,
    given: Option<&str>,
    at: usize,
    image: &str,
) -> Result<SlotWritten, Stop<SlotRefusal>>
    requires { at < length system.now.slots }
    ensures put { let conf = system_configuration system.now in
        let name = option_map (λ name. name.now) given.entry in
        let answer = place_answer conf name image.now (world_now (M.past m.old)) at in
        Puts M.tells conf image.now answer (M.past m.old) (M.past m.new) result }
    ensures about { IfRefused result (IsAbout at image.now) }
    ensures counts { StopCounted (M.faults m.old) (M.faults m.new) (M.wants m.old) (M.wants m.new) result }
{
    match check_slot(alloc, m, system, given, at, image) {
        Ok(()) => write_on(alloc, m, system, at, image),
        Err(stop) => Err(stop),
    }
}

/// Writes an image whole to the front of the device of the slot of this name. In this order:
/// `NoSuchSlot` where no slot has the name; `BootedUnknown` where neither the given name nor, where
/// none is given, the kernel's command line tells what is booted, also where that file is missing or
/// has more than 65,536 bytes; `Busy` where the slot or its root is booted; `ReadOnly` where the slot
/// is configured so; `ArchiveImage` where the image's path names an archive; `WrongType` where the
/// slot's type is not written to; `MountsUnread` where `/proc/mounts` is missing or has more than
/// 1,048,576 bytes; `Mounted` where the slot's device is mounted, also where the configuration allows
/// that; the refusals of the image's check.
///
/// Then the status file is read, where the system has one. Where anything is known of the slot there,
/// its record gets the status `update` by one replacement of that file, and only then the device is
/// written. Where the image is the status file itself, so many bytes of the new file are written as
/// the old one had; `ImageSize`, before anything is replaced, where the new one has fewer. So it is
/// too where another image grew shorter since its check.
pub fn write_slot<M: Machine>(
    alloc: Global,
    m: &mut M,
    system: &System,
    given: Option<&str>,
    slot: &str,
    image: &str,
) -> Result<SlotWritten, Stop<SlotRefusal>>
    ensures put { let conf = system_configuration system.now in
        let name = option_map (λ name. name.now) given.entry in
        let answer = slot_answer conf name slot.now image.now (world_now (M.past m.old)) in
        Puts M.tells conf image.now answer (M.past m.old) (M.past m.new) result }
    ensures names { IfRefused result (NamesSlot system.now.slots slot.now image.now) }

    // Wherever the power stops: all is as before, or the status file says that an update has begun, and
    // only the image's length of the slot's device differs.
    ensures held { let conf = system_configuration system.now in
        let name = option_map (λ name. name.now) given.entry in
        let answer = slot_answer conf name slot.now image.now (world_now (M.past m.old)) in
        PutStops M.tells conf answer (M.past m.old) (M.past m.new) }
    ensures running { let name = option_map (λ name. name.now) given.entry in
        let booted = what_runs system.now.slots name (world_now (M.past m.old)) in
        RunningKept M.tells system.now.slots booted (M.past m.old) (M.past m.new) }
    ensures truth { TruthKept M.tells (system_configuration system.now) (M.past m.old) (M.past m.new) }
    ensures counts { StopCounted (M.faults m.old) (M.faults m.new) (M.wants m.old) (M.wants m.new) result }
{
    match system.slot_named(slot) {
        Some(at) => write_at(alloc, m, system, given, at, image),
        None => {
            let text = Text::new(alloc, slot)?;
            Err(Stop::Refused(SlotRefusal::NoSuchSlot { text }))
        }
    }
}

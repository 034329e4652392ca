use crate::answers::{Answer, Counts, NONE, answer_of, with};
use crate::rows::{CALL, COMPLETED, HELLO, INSTALL, MARK, REPLY, ROWS, SLOT_STATUS};
use dbus_wire::{Message, Progress, read_message, write_message};
use std::alloc::Global;
use std::test::Fail;
use updater_text::Text;

// Whether a text is a message as it is, and with more behind it.
fn is_got(alloc: Global, bytes: &[u8]) -> Result<bool, Fail> {
    let mut longer = Vec::from_slice(alloc, bytes)?;
    longer.extend_from_slice(b"l\x01\0")?;
    let wanted = Answer::Got(bytes.len() as u64);
    Ok(answer_of(alloc, bytes) == wanted && answer_of(alloc, &longer) == wanted)
}

#[test]
fn rows_are_got(rt: HostRuntime) -> Result<(), Fail> {
    let mut all = true;
    for row in ROWS.iter() {
        all = all && is_got(rt.alloc(), row.bytes)?;
    }
    assert!(rt; all);
    Ok(())
}

// Whether of the first bytes of a message as many are missing as there are, of the first 16 before all.
fn needs_rest(alloc: Global, bytes: &[u8], len: usize) -> bool {
    let whole = if len < 16 { 16 } else { bytes.len() };
    let more = whole.saturating_sub(len) as u64;
    let (front, _) = bytes.split_at(len.min(bytes.len()));
    answer_of(alloc, front) == Answer::Need(more)
}

#[test]
fn each_prefix_needs_the_rest(rt: HostRuntime) -> Result<(), Fail> {
    let mut all = true;
    for row in ROWS.iter() {
        for len in 0..row.bytes.len() {
            all = all && needs_rest(rt.alloc(), row.bytes, len);
        }
    }
    assert!(rt; all);
    Ok(())
}

// Adds what the texts are that differ from this one in the byte at a place.
fn changed_at(alloc: Global, text: &mut [u8], place: usize, counts: Counts) -> Counts {
    let mut counts = counts;
    if place >= text.len() {
        return counts;
    }
    let old = text[place];
    for byte in 0..=255u8 {
        if byte != old {
            text[place] = byte;
            counts = with(counts, answer_of(alloc, text));
        }
    }
    text[place] = old;
    counts
}

fn changed(alloc: Global, bytes: &[u8]) -> Result<Counts, Fail> {
    let mut text = Vec::from_slice(alloc, bytes)?;
    let mut counts = NONE;
    for place in 0..bytes.len() {
        counts = changed_at(alloc, text.as_mut_slice(), place, counts);
    }
    Ok(counts)
}

#[test]
fn each_changed_byte_is_judged(rt: HostRuntime) -> Result<(), Fail> {
    let mut all = true;
    for row in ROWS.iter() {
        all = all && changed(rt.alloc(), row.bytes)? == row.changed;
    }
    assert!(rt; all);
    Ok(())
}

fn has(text: &Option<Text>, wanted: &str) -> bool {
    match text {
        Some(text) => text.as_str() == wanted,
        None => wanted.is_empty(),
    }
}

// Whether a message has this kind, these flags, this serial, path, interface, member, destination and
// signature; an empty text stands for none.
fn says(message: &Message, numbers: (u8, u8, u32), texts: [&str; 5]) -> bool {
    let [path, interface, member, destination, signature] = texts;
    message.little
        && (message.kind, message.flags, message.serial) == numbers
        && has(&message.path, path)
        && has(&message.interface, interface)
        && has(&message.member, member)
        && has(&message.destination, destination)
        && message.signature.as_str() == signature
        && has(&message.error_name, "")
        && has(&message.sender, "")
        && message.fds.is_none()
}

fn row_says(alloc: Global, bytes: &[u8], numbers: (u8, u8, u32), texts: [&str; 5]) -> bool {
    match read_message(alloc, bytes) {
        Ok(Progress::Got { message, .. }) => says(&message, numbers, texts),
        _ => false,
    }
}

const INSTALLER: &str = "de.pengutronix.rauc.Installer";

const RAUC: &str = "de.pengutronix.rauc";

const BUS: &str = "org.freedesktop.DBus";

#[test]
fn rows_say_what_was_sent(rt: HostRuntime) -> Result<(), Fail> {
    let alloc = rt.alloc();
    let call = row_says(alloc, CALL, (1, 0, 1), ["/", "", "GetPrimary", "", ""]);
    let reply = row_says(alloc, REPLY, (2, 1, 1), ["", "", "", "", "s"]);
    let mark = row_says(alloc, MARK, (1, 0, 1), ["/", INSTALLER, "Mark", RAUC, "ss"]);
    let signal = ["/", INSTALLER, "Completed", "", "iasdytxbqnova{su}"];
    let completed = row_says(alloc, COMPLETED, (4, 1, 1), signal);
    let status = ["/", INSTALLER, "GetSlotStatus", RAUC, ""];
    let slot_status = row_says(alloc, SLOT_STATUS, (1, 4, 2), status);
    let bundle = ["/", INSTALLER, "InstallBundle", RAUC, "sa{sv}"];
    let install = row_says(alloc, INSTALL, (1, 4, 2), bundle);
    let first = ["/org/freedesktop/DBus", BUS, "Hello", BUS, ""];
    let hello = row_says(alloc, HELLO, (1, 0, 1), first);
    assert!(rt; call && reply && mark && completed && slot_status && install && hello);
    Ok(())
}

// Whether a message that was read is written as these bytes.
fn is_written_as(alloc: Global, bytes: &[u8]) -> bool {
    match read_message(alloc, bytes) {
        Ok(Progress::Got { message, .. }) => match write_message(alloc, &message) {
            Ok(written) => written.as_slice() == bytes,
            Err(_) => false,
        },
        _ => false,
    }
}

#[test]
fn fields_are_written_in_order_of_their_codes(rt: HostRuntime) -> Result<(), Fail> {
    let alloc = rt.alloc();
    let ordered = is_written_as(alloc, CALL) && is_written_as(alloc, REPLY);
    let sent = is_written_as(alloc, MARK) && is_written_as(alloc, COMPLETED);
    assert!(rt; ordered && sent && !is_written_as(alloc, INSTALL) && !is_written_as(alloc, HELLO));
    Ok(())
}

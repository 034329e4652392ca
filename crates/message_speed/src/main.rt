//! Reads or writes one D-Bus message many times, for the benchmark.
//!
//! Use: `message_speed make SLOTS`, which writes the reply to `GetSlotStatus` of a system with so many slots
//! to standard output; `message_speed read COUNT FILE`, which reads the message in the file so many times;
//! `message_speed write COUNT FILE`, which reads it once and writes it so many times. It prints how many
//! bytes it read or wrote. The exit status is 0, or 1 with a line on standard error where the words are bad,
//! the file cannot be read or is no message, not all can be printed, or it is out of memory.
#![tactic(auto)]

ghost use Rattle.dbus_wire.specs.MessageView.{plain};
ghost use Rattle.dbus_wire.specs.InOrder.{HasSpelling};

mod reply;

use crate::reply::reply_of;
use dbus_wire::{Message, Progress, is_valid, read_message, write_message};
use std::alloc::Global;
use std::io::{self, Error, ErrorKind, Write};
use std::process::ExitCode;
use std::{env, fs};
use updater_text::read_number;

// Reads the message so many times, and answers how many bytes that were.
fn read_all(alloc: Global, bytes: &[u8], count: u64) -> io::Result<u64> {
    let mut total: u64 = 0;
    for _ in 0..count {
        match read_message(alloc, bytes) {
            Ok(Progress::Got { used, .. }) => total = total.saturating_add(used),
            _ => return Err(Error::from(ErrorKind::InvalidData)),
        }
    }
    Ok(total)
}

// Writes the message so many times, and answers how many bytes that were.
fn write_all(alloc: Global, message: &Message, count: u64) -> io::Result<u64>
    requires { HasSpelling (plain message.now) }
{
    let mut total: u64 = 0;
    for _ in 0..count {
        match write_message(alloc, message) {
            Ok(bytes) => total = total.saturating_add(bytes.len() as u64),
            Err(_) => return Err(Error::from(ErrorKind::InvalidData)),
        }
    }
    Ok(total)
}

// Writes the message that the bytes are so many times.
fn write_again(alloc: Global, bytes: &[u8], count: u64) -> io::Result<u64> {
    match read_message(alloc, bytes) {
        Ok(Progress::Got { message, .. }) => {
            if is_valid(&message) {
                write_all(alloc, &message, count)
            } else {
                Err(Error::from(ErrorKind::InvalidData))
            }
        }
        _ => Err(Error::from(ErrorKind::InvalidData)),
    }
}

fn repeat(rt: &HostRuntime, verb: &str, count: u64, path: &str) -> io::Result<()> {
    let bytes = fs::read(rt, path)?;
    let total = match verb {
        "read" => read_all(rt.alloc(), &bytes, count)?,
        "write" => write_again(rt.alloc(), &bytes, count)?,
        _ => return Err(Error::from(ErrorKind::InvalidInput)),
    };
    println!(rt; "{total}")?;
    Ok(())
}

// The bytes of a message that is valid.
fn bytes_of(alloc: Global, message: &Message) -> io::Result<Vec<u8>> {
    if !is_valid(message) {
        return Err(Error::from(ErrorKind::InvalidData));
    }
    match write_message(alloc, message) {
        Ok(bytes) => Ok(bytes),
        Err(_) => Err(Error::from(ErrorKind::InvalidData)),
    }
}

fn reply_bytes(alloc: Global, slots: u64) -> io::Result<Vec<u8>> {
    match reply_of(alloc, slots) {
        Ok(message) => bytes_of(alloc, &message),
        Err(_) => Err(Error::from(ErrorKind::OutOfMemory)),
    }
}

fn make(rt: &HostRuntime, slots: u64) -> io::Result<()> {
    let bytes = reply_bytes(rt.alloc(), slots)?;
    rt.stdout().write_all(&bytes)
}

fn run(rt: &HostRuntime) -> io::Result<()> {
    let mut words = env::args(rt)?.skip(1);
    let (Some(verb), Some(count)) = (words.next(), words.next()) else {
        return Err(Error::from(ErrorKind::InvalidInput));
    };
    let Some(count) = read_number(count.as_bytes()) else {
        return Err(Error::from(ErrorKind::InvalidInput));
    };
    match words.next() {
        Some(path) => repeat(rt, verb.as_str(), count, path.as_str()),
        None => make(rt, count),
    }
}

fn main(rt: HostRuntime) -> ExitCode {
    match run(&rt) {
        Ok(()) => ExitCode::from(0),
        Err(error) => {
            let _ = eprintln!(rt; "message_speed: {error}");
            ExitCode::from(1)
        }
    }
}

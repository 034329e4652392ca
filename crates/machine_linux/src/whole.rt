ghost use Rattle.std.specs.Prelude.{◌≡◌, ◌↔◌, ◌<◌, ◌^◌, None, IfOk, IfSome};
ghost use Rattle.std.specs.IoError.{error_kind, raw_os_error};
ghost use Rattle.std.specs.declared.io.ErrorKind.TheVariants.{OutOfMemory};
ghost use Rattle.machine.specs.declared.calls.CallStop.TheVariants.{NoMemory};
ghost use Rattle.machine_linux.specs.Reads.{Fits};

use crate::opened::names_nothing;
use machine::CallStop;
use std::alloc::Global;
use std::fs::{File, OpenFile};
use std::io::{ErrorKind, Read, Seek, SeekFrom};
use std::os::unix::fs::FileTypeExt;
use std::rt::Files;
use std::{fs, io};
use updater_text::Items;

// A file that tells less is expected to have so many bytes.
const LEAST: u64 = 4096;

// What stands under a path: nothing, a file with these bytes, or one of more bytes than asked for.
#[derive(Drop)]
pub enum Found {
    Missing,
    Whole(Items<u8>),
    TooLong(u64),
}

// The bytes of a file of at most `limit` bytes. It is read on to its end, since some files of the
// system tell a length of 0.
pub fn read_whole<R: Files>(
    rt: &R,
    alloc: Global,
    path: &str,
    limit: u64,
) -> Result<Found, CallStop>
    ensures { IfOk result (Fits limit) }
{
    let file = match File::open(rt, path) {
        Ok(file) => file,
        Err(error) if names_nothing(&error) => return Ok(Found::Missing),
        Err(_) => return Err(CallStop::Failed),
    };
    let Ok(metadata) = file.metadata() else {
        return Err(CallStop::Failed);
    };
    let stated = metadata.len();
    // one byte above the limit, and one for the read that finds the end
    let room = stated.max(LEAST).min(limit).saturating_add(2);
    let Ok(mut bytes) = Vec::with_capacity(alloc, room as usize) else {
        return Err(CallStop::NoMemory);
    };
    if let Err(error) = file.take(limit.saturating_add(1)).read_to_end(&mut bytes) {
        return Err(stop_of(&error));
    }
    let length = bytes.len() as u64;
    if length > limit {
        return Ok(Found::TooLong(length.max(stated)));
    }
    Ok(Found::Whole(Items::from_vec(bytes)))
}

// Why a call of std gave no value: memory for it was refused, or the system failed.
pub fn stop_of(error: &io::Error) -> CallStop
    ensures { (result ≡ NoMemory) ↔ ((error_kind error.now ≡ OutOfMemory) × (raw_os_error error.now ≡ None)) }
{
    if error.kind() == ErrorKind::OutOfMemory && error.raw_os_error().is_none() {
        CallStop::NoMemory
    } else {
        CallStop::Failed
    }
}

// The length of a regular file or of a block device, which tells it only by its end; None where the
// path names nothing.
pub fn length_of<R: Files>(rt: &R, path: &str) -> Result<Option<u64>, CallStop>
    ensures { IfOk result (λ size. IfSome size (λ length. length < 2 ^ 63)) }
{
    let metadata = match fs::metadata(rt, path) {
        Ok(metadata) => metadata,
        Err(error) if names_nothing(&error) => return Ok(None),
        Err(_) => return Err(CallStop::Failed),
    };
    let length = if metadata.is_file() {
        metadata.len()
    } else if metadata.file_type().is_block_device() {
        end_of(rt, path)?
    } else {
        return Err(CallStop::Failed);
    };
    if length < 1 << 63 {
        Ok(Some(length))
    } else {
        Err(CallStop::Failed)
    }
}

// Where a device ends.
fn end_of<R: Files>(rt: &R, path: &str) -> Result<u64, CallStop> {
    let Ok(mut file) = File::open(rt, path) else {
        return Err(CallStop::Failed);
    };
    match file.seek(SeekFrom::End(0)) {
        Ok(length) => Ok(length),
        Err(_) => Err(CallStop::Failed),
    }
}

ghost use Rattle.std.specs.Prelude.{◌≡◌, ◌↔◌, ◌<◌, ◌-◌, ◌+◌, min, length, pos, IfOk, IfSome, IsSome, IsTrue};
ghost use Rattle.std.specs.IoError.{error_kind};
ghost use Rattle.machine_linux.specs.Reads.{NamesNothing, PutFront};
ghost use Rattle.machine_linux.specs.Stretches.{EndsStretch, stretch};

use machine::CallStop;
use std::alloc::Global;
use std::fs::{OpenFile, OpenOptions};
use std::io;
use std::io::{ErrorKind, Seek, SeekFrom};
use std::os::fd::AsRawFd;
use std::os::unix::fs::FileExt;
use std::rt::Files;
use updater_text::Text;

// How much a read past the known length takes, in bytes.
const TAIL: usize = 4096;

// How much is written before the kernel is advised to begin with it, in bytes.
const STRETCH: u64 = 1 << 20;

// Where the whole stretch starts that ends at this offset; None where none does.
fn stretch_start(end: u64) -> Option<i64>
    ensures ends { IsSome result ↔ EndsStretch end }
    ensures start { IfSome result (λ start. start ≡ pos (end - stretch)) }
{
    if end == 0 || end % STRETCH != 0 {
        return None;
    }
    i64::try_from(end - STRETCH).ok()
}

// A file that stays open between calls.
#[derive(Drop)]
pub struct Opened<F> {
    path: Text,
    file: F,
    // its length when it was opened, or 0 where the system tells none
    length: u64,
}

// Whether the error tells that the path names nothing.
pub fn names_nothing(error: &io::Error) -> bool
    ensures { IsTrue result ↔ NamesNothing (error_kind error.now) }
{
    matches!(error.kind(), ErrorKind::NotFound | ErrorKind::NotADirectory)
}

// Opens a file; None where the path names nothing.
pub fn open<R: Files>(
    rt: &R,
    alloc: Global,
    how: &OpenOptions,
    path: &str,
) -> Result<Option<Opened<R::File>>, CallStop>
    ensures { IfOk result (λ found. IfSome found (λ opened. opened.path ≡ path.now)) }
{
    let mut file = match how.open(rt, path) {
        Ok(file) => file,
        Err(error) if names_nothing(&error) => return Ok(None),
        Err(_) => return Err(CallStop::Failed),
    };
    let Ok(path) = Text::new(alloc, path) else {
        return Err(CallStop::NoMemory);
    };
    let length = file.seek(SeekFrom::End(0)).unwrap_or(0);
    Ok(Some(Opened { path, file, length }))
}

impl<F> Opened<F> {
    // Whether it was opened at this path.
    pub fn is_at(&self, path: &str) -> bool
        ensures { IsTrue result ↔ (self.now.path ≡ path.now) }
    {
        self.path.as_str() == path
    }
}

impl<F: FileExt> Opened<F> {
    // Reads bytes from `at` on into the front of `into`: all that lie within the length that it had, and
    // where none do, what the system gives.
    pub fn read_at(&self, at: u64, into: &mut [u8]) -> io::Result<usize>
        ensures put { IfOk result (PutFront into.old into.new) }
        ensures known { let known = min (self.now.length - at) (length into.old) in IfOk result (λ count. 0 < known → count ≡ known) }
    {
        let known = self.length.saturating_sub(at).min(into.len() as u64) as usize;
        if known == 0 {
            return self.read_tail(at, into);
        }
        self.file.read_exact_at(&mut into[..known], at)?;
        Ok(known)
    }

    // The same where no length is known. A read may change its whole buffer, so it has one of its own.
    fn read_tail(&self, at: u64, into: &mut [u8]) -> io::Result<usize>
        ensures { IfOk result (PutFront into.old into.new) }
    {
        let mut tail = [0; TAIL];
        let wanted = into.len().min(TAIL);
        let count = self.file.read_at(&mut tail[..wanted], at)?;
        into[..count].copy_from_slice(&tail[..count]);
        Ok(count)
    }
}

impl<F: FileExt + AsRawFd> Opened<F> {
    // Writes all the bytes from `at` on.
    pub fn write_at(&self, at: u64, from: &[u8]) -> io::Result<()> {
        self.file.write_all_at(from, at)?;
        self.start_writing(at.saturating_add(from.len() as u64));
        Ok(())
    }

    // Advises the kernel that the bytes before `end` are not needed any more, where a whole stretch of
    // them ends there. Linux begins to write them back then, where else it may begin only at the sync,
    // which waits for all of it.
    fn start_writing(&self, end: u64) {
        if let Some(start) = stretch_start(end) {
            let fd = self.file.as_raw_fd();
            let _ = libc::posix_fadvise(fd, start, STRETCH as i64, libc::POSIX_FADV_DONTNEED);
        }
    }
}

impl<F: OpenFile> Opened<F> {
    // Waits until what was written has reached the device.
    pub fn sync(&self) -> io::Result<()> {
        self.file.sync_all()
    }
}

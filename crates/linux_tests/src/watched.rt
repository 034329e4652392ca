// The system's runtime, which notes what is asked of it, and fails where a test has it fail.
use std::alloc::Allocator;
use std::cell::Cell;
use std::fs::{Metadata, OpenFile, OpenOptions, Permissions};
use std::io;
use std::io::{ErrorKind, PipeReader, PipeWriter, Read, Seek, SeekFrom, Write};
use std::os::fd::{AsRawFd, BorrowedFd, RawFd};
use std::os::unix::fs::FileExt;
use std::os::unix::net::SocketAddr;
use std::path::PathBuf;
use std::process::{Child, Command, OpenProcess, Processes, Stdio};
use std::rt::Files;
use std::thread::Threads;
use std::time::{Clock, Duration};

pub const MADE: u64 = 1;

pub const WRITTEN: u64 = 2;

pub const SYNCED: u64 = 3;

pub const RENAMED: u64 = 4;

pub const OPENED: u64 = 5;

pub const REMOVED: u64 = 6;

pub const NUMBERED: u64 = 7;

pub const MODE_SET: u64 = 8;

pub const PIPED: u64 = 9;

// The clock stands still here, in milliseconds since 1970.
const NOW: u64 = 1_700_000_000_999;

// What was asked for so far, as the digits of a number, and what is to be answered otherwise than by
// the system.
#[derive(Drop)]
pub struct Notes<'a> {
    steps: Cell<u64>,
    child: Cell<u32>,
    pipes: Cell<u32>,
    // the step that fails
    fails: Cell<u64>,
    // the pipe, counted from 1, of which no read is answered
    unread: Cell<u32>,
    // what the files are said to be, by the path of another
    alike: Option<&'a str>,
}

impl<'a> Notes<'a> {
    pub fn new(alike: Option<&'a str>) -> Notes<'a> {
        Notes {
            steps: Cell::new(0),
            child: Cell::new(0),
            pipes: Cell::new(0),
            fails: Cell::new(0),
            unread: Cell::new(0),
            alike,
        }
    }

    // Begins the notes anew. From now on this step fails, and no read of this pipe is answered.
    pub fn begin(&self, fails: u64, unread: u32) {
        self.steps.set(0);
        self.child.set(0);
        self.pipes.set(0);
        self.fails.set(fails);
        self.unread.set(unread);
    }

    pub fn steps(&self) -> u64 {
        self.steps.get()
    }

    // The number of the child that was started last; 0 where none was.
    pub fn child(&self) -> u32 {
        self.child.get()
    }

    fn note(&self, step: u64) -> io::Result<()> {
        let steps = self.steps.get();
        self.steps.set(steps.wrapping_mul(10).wrapping_add(step));
        if step == self.fails.get() {
            return Err(io::Error::from(ErrorKind::Other));
        }
        Ok(())
    }
}

#[derive(Drop)]
pub struct Watched<'a, R> {
    pub rt: R,
    pub notes: &'a Notes<'a>,
}

#[derive(Drop)]
pub struct WatchedFile<'a, F> {
    file: F,
    notes: &'a Notes<'a>,
}

impl<'a, F: Read> Read for WatchedFile<'a, F> {
    fn read(&mut self, into: &mut [u8]) -> io::Result<usize> {
        self.file.read(into)
    }
}

impl<'a, F: Write> Write for WatchedFile<'a, F> {
    fn write(&mut self, from: &[u8]) -> io::Result<usize> {
        self.notes.note(WRITTEN)?;
        self.file.write(from)
    }

    fn flush(&mut self) -> io::Result<()> {
        self.file.flush()
    }
}

impl<'a, F: Seek> Seek for WatchedFile<'a, F> {
    fn seek(&mut self, to: SeekFrom) -> io::Result<u64> {
        self.file.seek(to)
    }
}

impl<'a, F: FileExt> FileExt for WatchedFile<'a, F> {
    fn read_at(&self, into: &mut [u8], offset: u64) -> io::Result<usize> {
        self.file.read_at(into, offset)
    }

    fn write_at(&self, from: &[u8], offset: u64) -> io::Result<usize> {
        self.notes.note(WRITTEN)?;
        self.file.write_at(from, offset)
    }
}

impl<'a, F: AsRawFd> AsRawFd for WatchedFile<'a, F> {
    fn as_raw_fd(&self) -> RawFd {
        let _ = self.notes.note(NUMBERED);
        self.file.as_raw_fd()
    }
}

impl<'a, F: OpenFile> OpenFile for WatchedFile<'a, F> {
    fn metadata(&self) -> io::Result<Metadata> {
        self.file.metadata()
    }

    fn set_len(&self, size: u64) -> io::Result<()> {
        self.file.set_len(size)
    }

    fn sync_all(&self) -> io::Result<()> {
        self.notes.note(SYNCED)?;
        self.file.sync_all()
    }

    fn sync_data(&self) -> io::Result<()> {
        self.file.sync_data()
    }

    fn set_permissions(&self, permissions: Permissions) -> io::Result<()> {
        self.notes.note(MODE_SET)?;
        self.file.set_permissions(permissions)
    }
}

impl<'a, R: Files> Files for Watched<'a, R> {
    type File = WatchedFile<'a, R::File>;

    type Dir = R::Dir;

    fn open_file(&self, how: &OpenOptions, path: &str) -> io::Result<WatchedFile<'a, R::File>> {
        self.notes
            .note(if how.asks_create_new() { MADE } else { OPENED })?;
        Ok(WatchedFile {
            file: self.rt.open_file(how, path)?,
            notes: self.notes,
        })
    }

    fn open_dir(&self, path: &str) -> io::Result<R::Dir> {
        self.rt.open_dir(path)
    }

    fn metadata(&self, path: &str) -> io::Result<Metadata> {
        self.rt.metadata(self.notes.alike.unwrap_or(path))
    }

    fn symlink_metadata(&self, path: &str) -> io::Result<Metadata> {
        self.rt.symlink_metadata(path)
    }

    fn copy(&self, from: &str, to: &str) -> io::Result<u64> {
        self.rt.copy(from, to)
    }

    fn rename(&self, from: &str, to: &str) -> io::Result<()> {
        self.notes.note(RENAMED)?;
        self.rt.rename(from, to)
    }

    fn remove_file(&self, path: &str) -> io::Result<()> {
        self.notes.note(REMOVED)?;
        self.rt.remove_file(path)
    }

    fn create_dir(&self, path: &str) -> io::Result<()> {
        self.rt.create_dir(path)
    }

    fn remove_dir(&self, path: &str) -> io::Result<()> {
        self.rt.remove_dir(path)
    }

    fn remove_dir_all<B: Allocator>(&self, alloc: B, path: &str) -> io::Result<()> {
        self.rt.remove_dir_all(alloc, path)
    }

    fn canonicalize<B: Allocator>(&self, alloc: B, path: &str) -> io::Result<PathBuf<B>> {
        self.rt.canonicalize(alloc, path)
    }

    fn read_link<B: Allocator>(&self, alloc: B, path: &str) -> io::Result<PathBuf<B>> {
        self.rt.read_link(alloc, path)
    }

    fn hard_link(&self, original: &str, link: &str) -> io::Result<()> {
        self.rt.hard_link(original, link)
    }

    fn set_permissions(&self, path: &str, permissions: Permissions) -> io::Result<()> {
        self.rt.set_permissions(path, permissions)
    }

    fn symlink(&self, original: &str, link: &str) -> io::Result<()> {
        self.rt.symlink(original, link)
    }

    fn chown(&self, path: &str, user: Option<u32>, group: Option<u32>) -> io::Result<()> {
        self.rt.chown(path, user, group)
    }

    fn lchown(&self, path: &str, user: Option<u32>, group: Option<u32>) -> io::Result<()> {
        self.rt.lchown(path, user, group)
    }

    fn create_dir_with_mode(&self, path: &str, mode: u32) -> io::Result<()> {
        self.rt.create_dir_with_mode(path, mode)
    }

    fn bind_unix(&self, socket: BorrowedFd<'_>, addr: &SocketAddr) -> io::Result<()> {
        self.rt.bind_unix(socket, addr)
    }

    fn pipe(&self) -> io::Result<(PipeReader, PipeWriter)> {
        self.notes.note(PIPED)?;
        let (reader, writer) = self.rt.pipe()?;
        let number = self.notes.pipes.get().wrapping_add(1);
        self.notes.pipes.set(number);
        if number == self.notes.unread.get() {
            // a read that would wait is then an error
            os::set_nonblocking(reader.as_raw_fd(), true);
        }
        Ok((reader, writer))
    }
}

impl<'a, R: Processes> Processes for Watched<'a, R> {
    type Started = R::Started;

    fn spawn<B: Allocator + Clone>(
        &self,
        command: &Command<B>,
        stdin: &Stdio,
        stdout: &Stdio,
        stderr: &Stdio,
    ) -> io::Result<Child<R::Started>> {
        let started = self.rt.spawn(command, stdin, stdout, stderr);
        if let Ok(child) = &started {
            self.notes.child.set(child.id());
        }
        started
    }
}

impl<'a, R: Threads> Threads for Watched<'a, R> {}

impl<'a, R: Clock> Clock for Watched<'a, R> {
    fn monotonic(&self) -> io::Result<Duration> {
        self.rt.monotonic()
    }

    fn since_1970(&self) -> io::Result<Duration> {
        Ok(Duration::from_millis(NOW))
    }
}

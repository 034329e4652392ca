use crate::opened::names_nothing;
use crate::whole::stop_of;
use machine::CallStop;
use std::alloc::Global;
use std::fs::{File, Metadata, OpenFile, OpenOptions, Permissions, metadata, remove_file, rename};
use std::io;
use std::io::{ErrorKind, Write};
use std::os::fd::AsRawFd;
use std::os::unix::fs::{MetadataExt, OpenOptionsExt, PermissionsExt};
use std::rt::Files;

// How many names beside a file are tried.
const TRIES: u32 = 1000;

// The mode of a new file until it is known whose it is to be, and of one that replaces none, which the
// process's mask narrows.
const PRIVATE: u32 = 0o600;

const COMMON: u32 = 0o666;

// The bits of a mode that say who may do what.
const RIGHTS: u32 = 0o7777;

// A file that was made beside another, and its path.
#[derive(Drop)]
struct Beside<F> {
    path: String,
    file: F,
}

// What the system tells of the file at the path; None where it names nothing.
fn metadata_of<R: Files>(rt: &R, path: &str) -> Result<Option<Metadata>, CallStop> {
    match metadata(rt, path) {
        Ok(old) => Ok(Some(old)),
        Err(error) if names_nothing(&error) => Ok(None),
        Err(error) => Err(stop_of(&error)),
    }
}

// Makes a new file beside the path, under the first name that nothing has: a file, folder or link of
// such a name is never opened. It fails where all the names are had.
fn make_beside<R: Files>(
    rt: &R,
    alloc: Global,
    path: &str,
    mode: u32,
) -> Result<Beside<R::File>, CallStop> {
    let mut how = OpenOptions::new();
    how.write(true).create_new(true).mode(mode);
    for number in 0..TRIES {
        let Ok(name) = format!(in alloc; "{path}.{number}.new") else {
            return Err(CallStop::NoMemory);
        };
        match how.open(rt, name.as_str()) {
            Ok(file) => return Ok(Beside { path: name, file }),
            Err(error) if error.kind() == ErrorKind::AlreadyExists => {}
            Err(error) => return Err(stop_of(&error)),
        }
    }
    Err(CallStop::Failed)
}

// Gives a file the owner, the group and the mode of another, as far as the system allows. The owner
// comes first, since a change of it may clear bits of the mode.
fn copy_rights<F: OpenFile + AsRawFd>(file: &F, old: &Metadata) {
    let _ = libc::fchown(file.as_raw_fd(), old.uid(), old.gid());
    let _ = file.set_permissions(Permissions::from_mode(old.mode() & RIGHTS));
}

// Writes the bytes to a new file, which last through a crash then, and gives it the name of another.
fn put_in_place<R: Files>(
    rt: &R,
    beside: &mut Beside<R::File>,
    path: &str,
    bytes: &[u8],
) -> io::Result<()> {
    beside.file.write_all(bytes)?;
    beside.file.sync_all()?;
    rename(rt, beside.path.as_str(), path)
}

// The folder in which a path lies.
fn folder_of(path: &str) -> &str {
    match path.rsplit_once('/') {
        Some(("", _)) => "/",
        Some((folder, _)) => folder,
        None => ".",
    }
}

// Makes the names in a folder last through a crash.
fn sync_folder<R: Files>(rt: &R, folder: &str) -> io::Result<()> {
    File::open(rt, folder)?.sync_all()
}

// Puts a file with these bytes in the place of the one at the path, whose owner and mode it takes
// where it may: it is written beside it and synced, and then takes its name, so that there is a whole
// file at each moment.
pub fn replace_file<R: Files>(
    rt: &R,
    alloc: Global,
    path: &str,
    bytes: &[u8],
) -> Result<(), CallStop>
where
    R::File: AsRawFd,
{
    let old = metadata_of(rt, path)?;
    let mode = if old.is_some() { PRIVATE } else { COMMON };
    let mut beside = make_beside(rt, alloc, path, mode)?;
    if let Some(old) = &old {
        copy_rights(&beside.file, old);
    }
    if let Err(error) = put_in_place(rt, &mut beside, path, bytes) {
        let _ = remove_file(rt, beside.path.as_str());
        return Err(stop_of(&error));
    }
    match sync_folder(rt, folder_of(path)) {
        Ok(()) => Ok(()),
        Err(_) => Err(CallStop::Failed),
    }
}

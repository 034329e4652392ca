use crate::page::Page;
use boot_model::Vars;
use machine::{Ended, Named, RunNote, Span, World};
use undo_log::bytes_of;
use updater_text::NoMemory;

// From which byte on, and up to which, the bytes differ.
fn changed_range(before: &[u8], after: &[u8]) -> Option<(usize, usize)> {
    if before == after {
        return None;
    }
    let mut range = None;
    for at in 0..after.len() {
        if before.get(at) != after.get(at) {
            range = match range {
                Some((first, _)) => Some((first, at + 1)),
                None => Some((at, at + 1)),
            };
        }
    }
    range
}

fn tell_disk(page: &mut Page, before: &[Named], disk: &Named) -> Result<(), NoMemory> {
    let path = disk.path.as_str();
    let after = disk.bytes.as_slice();
    page.begin_item("disk ", path)?;
    match changed_range(bytes_of(before, path).unwrap_or(&[]), after) {
        Some((first, end)) => {
            page.range(first as u64, end as u64)?;
            page.content(after.get(first..end).unwrap_or(&[]))
        }
        None => page.say(" as before"),
    }
}

fn tell_file(page: &mut Page, before: &[Named], file: &Named) -> Result<(), NoMemory> {
    let path = file.path.as_str();
    let bytes = file.bytes.as_slice();
    let word = match bytes_of(before, path) {
        Some(old) if old == bytes => return Ok(()),
        Some(_) => "file ",
        None => "new file ",
    };
    page.begin_item(word, path)?;
    page.content(bytes)
}

// Tells which files there are no more.
fn tell_gone(page: &mut Page, before: &[Named], after: &[Named]) -> Result<(), NoMemory> {
    for file in before {
        let path = file.path.as_str();
        if bytes_of(after, path).is_none() {
            page.begin_item("no file ", path)?;
        }
    }
    Ok(())
}

// Tells which variables are not the same as in `other`.
fn tell_vars(page: &mut Page, word: &str, vars: &Vars, other: &Vars) -> Result<(), NoMemory> {
    for at in 0..vars.len() {
        if let Some(name) = vars.name(at)
            && vars.get(name) != other.get(name)
        {
            page.begin_item(word, name)?;
            page.content(vars.get(name).unwrap_or("").as_bytes())?;
        }
    }
    Ok(())
}

// Tells which files are not as before.
fn tell_files(page: &mut Page, before: &[Named], after: &[Named]) -> Result<(), NoMemory> {
    for file in after {
        tell_file(page, before, file)?;
    }
    tell_gone(page, before, after)
}

/// Tells of each disk what differs between two worlds, and the files and variables that differ.
pub fn tell_changes(page: &mut Page, before: &World, after: &World) -> Result<(), NoMemory> {
    for disk in after.disks.as_slice() {
        tell_disk(page, before.disks.as_slice(), disk)?;
    }
    tell_files(page, before.files.as_slice(), after.files.as_slice())?;
    tell_vars(page, "variable ", &after.vars, &before.vars)?;
    tell_vars(page, "old variable ", &before.vars, &after.vars)
}

/// Tells each write on a line.
pub fn tell_writes(page: &mut Page, writes: &[Span]) -> Result<(), NoMemory> {
    for write in writes {
        page.say("write: ")?;
        page.say(write.path.as_str())?;
        page.range(write.at, write.at.saturating_add(write.length))?;
        page.say("\n")?;
    }
    Ok(())
}

fn tell_run(page: &mut Page, run: &RunNote) -> Result<(), NoMemory> {
    page.say("ran: ")?;
    page.say(run.child.program.as_str())?;
    for arg in run.child.args.as_slice() {
        page.say(" ")?;
        page.say(arg.as_str())?;
    }
    match run.exit.ended {
        Ended::Code(code) => page.count(", status ", u64::from(code))?,
        Ended::Signal => page.say(", by a signal")?,
    }
    page.say("\n")
}

/// Tells each child on a line.
pub fn tell_runs(page: &mut Page, runs: &[RunNote]) -> Result<(), NoMemory> {
    for run in runs {
        tell_run(page, run)?;
    }
    Ok(())
}

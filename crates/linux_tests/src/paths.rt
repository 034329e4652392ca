// Files of the tests.
use std::fs::Permissions;
use std::os::unix::fs::{MetadataExt, PermissionsExt, chown, symlink};
use std::{fs, process};

// What is done to a file, or has to be found of it.
pub enum Deed<'a> {
    Put(&'a str),
    Has(&'a str),
    // it is made a link to the file whose name goes on with this
    Link(&'a str),
    IsLink,
    // it gets another owner, where this process may, and a mode of its own
    Give,
    // it has the owner, the group and the mode of the file whose name goes on with this
    HasRightsOf(&'a str),
    IsGone,
    Remove,
}

// The path of a new file with this text, which this test alone has; None where none can be made.
pub fn make_file(rt: &HostRuntime, name: &str, text: &str) -> Option<String> {
    let id = process::id(rt.process());
    let path = format!(in rt.alloc(); "/tmp/linux_tests-{id}-{name}").ok()?;
    let is_made = fs::write(rt, path.as_str(), text).is_ok();
    if is_made { Some(path) } else { None }
}

fn path_with(rt: &HostRuntime, path: &str, end: &str) -> Option<String> {
    format!(in rt.alloc(); "{path}{end}").ok()
}

pub fn is_removed(rt: &HostRuntime, path: &str) -> bool {
    fs::remove_file(rt, path).is_ok()
}

// Whether nothing is found at the path.
fn is_gone(rt: &HostRuntime, path: &str) -> bool {
    match fs::exists(rt, path) {
        Ok(is_there) => !is_there,
        Err(_) => false,
    }
}

fn has_text(rt: &HostRuntime, path: &str, text: &str) -> bool {
    match fs::read_to_string(rt, path) {
        Ok(found) => found.as_str() == text,
        Err(_) => false,
    }
}

fn is_link(rt: &HostRuntime, path: &str) -> bool {
    match fs::symlink_metadata(rt, path) {
        Ok(found) => found.is_symlink(),
        Err(_) => false,
    }
}

// Only root may give a file to another.
fn is_given(rt: &HostRuntime, path: &str) -> bool {
    let _ = chown(rt, path, Some(1234), Some(5678));
    fs::set_permissions(rt, path, Permissions::from_mode(0o751)).is_ok()
}

// The owner, the group and the mode.
fn rights_of(rt: &HostRuntime, path: &str) -> Option<(u32, u32, u32)> {
    match fs::metadata(rt, path) {
        Ok(found) => Some((found.uid(), found.gid(), found.mode())),
        Err(_) => None,
    }
}

fn has_rights_of(rt: &HostRuntime, path: &str, beside: &str, end: &str) -> bool {
    let rights = rights_of(rt, beside);
    match path_with(rt, path, end) {
        Some(other) => rights.is_some() && rights == rights_of(rt, other.as_str()),
        None => false,
    }
}

fn is_linked(rt: &HostRuntime, path: &str, beside: &str, end: &str) -> bool {
    match path_with(rt, path, end) {
        Some(target) => symlink(rt, target.as_str(), beside).is_ok(),
        None => false,
    }
}

fn is_done_at(rt: &HostRuntime, path: &str, beside: &str, deed: &Deed<'_>) -> bool {
    match deed {
        Deed::Put(text) => fs::write(rt, beside, *text).is_ok(),
        Deed::Has(text) => has_text(rt, beside, text),
        Deed::Link(end) => is_linked(rt, path, beside, end),
        Deed::IsLink => is_link(rt, beside),
        Deed::Give => is_given(rt, beside),
        Deed::HasRightsOf(end) => has_rights_of(rt, path, beside, end),
        Deed::IsGone => is_gone(rt, beside),
        Deed::Remove => is_removed(rt, beside),
    }
}

// Whether this is done or found at the path with this end.
pub fn is_done(rt: &HostRuntime, path: &str, end: &str, deed: &Deed<'_>) -> bool {
    match path_with(rt, path, end) {
        Some(beside) => is_done_at(rt, path, beside.as_str(), deed),
        None => false,
    }
}

// Whether there is a process of this number.
pub fn has_process(rt: &HostRuntime, id: u32) -> bool {
    match format!(in rt.alloc(); "/proc/{id}") {
        Ok(entry) => !is_gone(rt, entry.as_str()),
        Err(_) => true,
    }
}

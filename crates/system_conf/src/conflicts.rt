ghost use Rattle.std.specs.Prelude.{◌≡◌, IfOk};
ghost use Rattle.std.specs.List.{list_any};
ghost use Rattle.std.specs.Str.{bytes_eq};
ghost use Rattle.system_conf.specs.Conflicts as spec;

use crate::Reader;
use crate::values::{
    central_file, data_directory_of, grub_file_of, mount_prefix_of, status_file_of,
};
use conf_forms::{SlotGroup, without_slash};
use keyfile::KeyFile;
use std::alloc::Global;
use updater_text::{NoMemory, is_within};

/// Whether the value is a path of `[system]` that names a place which is taken.
pub fn is_conflict(
    reader: &Reader<'_>,
    group: &str,
    key: &str,
    value: &str,
) -> Result<bool, NoMemory>
    ensures { IfOk result (λ b. b ≡ spec.is_conflict reader.now.file.now group.now (key.now, value.now)) }
{
    if group == "system" {
        is_taken(reader, key, value)
    } else {
        Ok(false)
    }
}

// Whether the path may not be that of the key of `[system]`.
fn is_taken(reader: &Reader<'_>, key: &str, path: &str) -> Result<bool, NoMemory>
    ensures { IfOk result (λ b. b ≡ spec.is_taken reader.now.file.now key.now path.now) }
{
    match key {
        "statusfile" => is_status_taken(reader, path),
        "data-directory" => Ok(is_within(mount_prefix_of(reader.file), without_slash(path))),
        "grubenv" => is_grubenv_taken(reader.alloc, reader.file, path),
        _ => Ok(false),
    }
}

fn is_status_taken(reader: &Reader<'_>, path: &str) -> Result<bool, NoMemory>
    ensures { IfOk result (λ b. b ≡ spec.is_status_taken reader.now.file.now path.now) }
{
    if is_within(mount_prefix_of(reader.file), path) || is_index_file(reader, path)? {
        return Ok(true);
    }
    Ok(grub_file_of(reader.file).is_some_and(|grubenv| path == grubenv))
}

fn is_grubenv_taken(alloc: Global, file: &KeyFile, path: &str) -> Result<bool, NoMemory>
    ensures { IfOk result (λ b. b ≡ spec.is_grubenv_taken file.now path.now) }
{
    if grub_file_of(file).is_none() {
        return Ok(false);
    }
    let Some(directory) = data_directory_of(file) else {
        return Ok(false);
    };
    let central = central_file(alloc, directory)?;
    match status_file_of(alloc, file)? {
        Some(status) => Ok(central.as_str() == status.as_str() && path == status.as_str()),
        None => Ok(false),
    }
}

// Whether a path is that of a slot's stored index in the data directory.
fn is_index_file(reader: &Reader<'_>, path: &str) -> Result<bool, NoMemory>
    ensures { IfOk result (λ b. b ≡ spec.is_index_file reader.now.file.now path.now) }
{
    match data_directory_of(reader.file) {
        Some(directory) => is_index_in(reader.alloc, directory, reader.slots, path),
        None => Ok(false),
    }
}

fn is_index_in(
    alloc: Global,
    directory: &str,
    slots: &[SlotGroup<'_>],
    path: &str,
) -> Result<bool, NoMemory>
    ensures { IfOk result (λ b. b ≡ list_any (λ s. bytes_eq path.now (spec.index_file directory.now s.name.now)) slots.now) }
{
    for slot in slots {
        if is_index_of(alloc, directory, slot.name, path)? {
            return Ok(true);
        }
    }
    Ok(false)
}

fn is_index_of(alloc: Global, directory: &str, name: &str, path: &str) -> Result<bool, NoMemory>
    ensures { IfOk result (λ b. b ≡ bytes_eq path.now (spec.index_file directory.now name.now)) }
{
    let index = format!(in alloc; "{directory}/index.{name}")?;
    Ok(path == index.as_str())
}

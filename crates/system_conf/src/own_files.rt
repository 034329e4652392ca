ghost use Rattle.std.specs.Prelude.{◌≡◌, IfOk, option_map};
ghost use Rattle.conf_forms.specs.Lists.{first_of};
ghost use Rattle.system_conf.specs.OwnFiles as spec;
ghost use Rattle.system_conf.specs.Refusals.{device_is_file};
ghost use Rattle.system_conf.specs.Values.{status_file_of};

use crate::values::{data_directory_of, grub_file_of, mount_prefix_of, status_file_of};
use crate::{ConfRefusal, Reader, Slot};
use keyfile::KeyFile;
use updater_text::{NoMemory, Text, lies_under};

/// The first slot whose device is a file of the updater, or lies where it keeps files.
#[tactic(auto, unfolding(crate::specs::Refusals::device_is_file))]
pub fn device_is_file(reader: &Reader<'_>, slots: &[Slot]) -> Result<Option<ConfRefusal>, NoMemory>
    ensures { IfOk result (λ refusal. refusal ≡ device_is_file reader.now.file.now slots.now) }
{
    let status_file = status_file_of(reader.alloc, reader.file)?;
    match first_own(reader.file, &status_file, slots) {
        Some(name) => Ok(Some(ConfRefusal::DeviceIsFile {
            slot: name.copy(reader.alloc)?,
        })),
        None => Ok(None),
    }
}

// The name of the first such slot.
fn first_own<'a>(file: &KeyFile, status_file: &Option<Text>, slots: &'a [Slot]) -> Option<&'a Text>
    requires { status_file.now ≡ status_file_of file.now }
    ensures { option_map (λ name. name.now) result ≡ first_of (spec.own_device (spec.own_files_of file.now)) slots.entry.now }
{
    for slot in slots {
        if is_own(file, status_file, slot.device.as_str()) {
            return Some(&slot.name);
        }
    }
    None
}

// Whether the updater keeps a file there, or may.
fn is_own(file: &KeyFile, status_file: &Option<Text>, path: &str) -> bool
    requires { status_file.now ≡ status_file_of file.now }
    ensures { result ≡ spec.is_own (spec.own_files_of file.now) path.now }
{
    is_file(file, status_file, path) || is_in_directory(file, path)
}

fn is_file(file: &KeyFile, status_file: &Option<Text>, path: &str) -> bool
    requires { status_file.now ≡ status_file_of file.now }
    ensures { result ≡ spec.is_own_file (spec.own_files_of file.now) path.now }
{
    if let Some(status) = status_file {
        if path == status.as_str() {
            return true;
        }
    }
    grub_file_of(file).is_some_and(|grubenv| path == grubenv)
}

fn is_in_directory(file: &KeyFile, path: &str) -> bool
    ensures { result ≡ spec.is_below_own (spec.own_files_of file.now) path.now }
{
    data_directory_of(file).is_some_and(|directory| lies_under(directory, path))
        || lies_under(mount_prefix_of(file), path)
}

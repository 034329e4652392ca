ghost use Rattle.std.specs.Prelude.{◌≡◌, option_map};
ghost use Rattle.conf_forms.specs.Lists.{first_of};
ghost use Rattle.conf_forms.specs.Walks.{missing_key, place_texts};
ghost use Rattle.system_conf.specs.Mandatory as spec;

use crate::Reader;
use crate::values::loader_of;
use conf_forms::{KeyPlace, missing_key};
use keyfile::KeyFile;

/// The first mandatory key that has no value.
pub fn first_missing<'a>(reader: &'a Reader<'_>) -> Option<KeyPlace<'a>>
    ensures { option_map place_texts result ≡ spec.first_missing reader.entry.now.file.now }
{
    if let Some(place) = missing_key(reader.file, "system", "compatible") {
        return Some(place);
    }
    if let Some(place) = missing_key(reader.file, "system", "bootloader") {
        return Some(place);
    }
    if let Some(place) = missing_device(reader) {
        return Some(place);
    }
    missing_program(reader.file)
}

// The program of a custom boot loader, where it is not there.
fn missing_program(file: &KeyFile) -> Option<KeyPlace<'_>>
    ensures { option_map place_texts result ≡ first_of (missing_key file.entry.now) (spec.custom_keys file.entry.now) }
{
    if loader_of(file) == "custom" {
        missing_key(file, "handlers", "bootloader-custom-backend")
    } else {
        None
    }
}

// The device of the first slot that has none.
fn missing_device<'a>(reader: &'a Reader<'_>) -> Option<KeyPlace<'a>>
    ensures { option_map place_texts result ≡ first_of (missing_key reader.entry.now.file.now) (spec.device_keys reader.entry.now.file.now) }
{
    for slot in reader.slots {
        if let Some(place) = missing_key(reader.file, slot.group, "device") {
            return Some(place);
        }
    }
    None
}

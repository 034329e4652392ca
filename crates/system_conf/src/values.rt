ghost use Rattle.std.specs.Prelude.{◌≡◌, IfOk, option_copied};
ghost use Rattle.system_conf.specs.Values as spec;

use crate::Helpers;
use boot_model::BootKind;
use conf_forms::{Form, attempts_of, value_with_form, without_slash};
use keyfile::KeyFile;
use std::alloc::Global;
use updater_text::{NoMemory, Text, read_flag, text_if_any};

/// The flag at a key, or else the default.
pub fn flag_in(file: &KeyFile, group: &str, key: &str, default: bool) -> bool
    ensures { result ≡ spec.flag_in file.now group.now key.now default }
{
    match file.get(group, key) {
        Some(value) => read_flag(value.as_bytes()).unwrap_or(default),
        None => default,
    }
}

// The number of attempts at a key of `[system]`, or else 3.
fn attempts_in(file: &KeyFile, key: &str) -> u8
    ensures { result ≡ spec.attempts_in file.now key.now }
{
    match file.get("system", key) {
        Some(value) => attempts_of(value).unwrap_or(3),
        None => 3,
    }
}

/// What the system is called.
pub fn compatible_of(file: &KeyFile) -> &str
    ensures { result.now ≡ spec.compatible_of file.entry.now }
{
    file.get("system", "compatible").unwrap_or("")
}

/// The directory below which bundles are mounted.
pub fn mount_prefix_of(file: &KeyFile) -> &str
    ensures { result.now ≡ spec.mount_prefix_of file.entry.now }
{
    let given = value_with_form(file, Form::Directory, "system", "mountprefix");
    without_slash(given.unwrap_or("/mnt/rauc/"))
}

/// The directory for the updater's data, where there is one.
pub fn data_directory_of(file: &KeyFile) -> Option<&str>
    ensures { option_copied result ≡ spec.data_directory_of file.entry.now }
{
    match value_with_form(file, Form::Directory, "system", "data-directory") {
        Some(directory) => Some(without_slash(directory)),
        None => None,
    }
}

/// GRUB's environment block.
pub fn grubenv_of(file: &KeyFile) -> &str
    ensures { result.now ≡ spec.grubenv_of file.entry.now }
{
    value_with_form(file, Form::Path, "system", "grubenv").unwrap_or("/boot/grub/grubenv")
}

/// GRUB's environment block, where GRUB is the boot loader.
pub fn grub_file_of(file: &KeyFile) -> Option<&str>
    ensures { option_copied result ≡ spec.grub_file_of file.entry.now }
{
    if loader_of(file) == "grub" {
        Some(grubenv_of(file))
    } else {
        None
    }
}

/// The word of the boot loader.
pub fn loader_of(file: &KeyFile) -> &str
    ensures { result.now ≡ spec.loader_of file.entry.now }
{
    file.get("system", "bootloader").unwrap_or("")
}

/// The status file in a data directory.
pub fn central_file(alloc: Global, directory: &str) -> Result<Text, NoMemory>
    ensures { IfOk result (λ path. path ≡ spec.central_file directory.now) }
{
    Ok(Text::from_string(format!(in alloc; "{directory}/central.raucs")?))
}

/// The status file: the one that is named, else the one in the data directory.
pub fn status_file_of(alloc: Global, file: &KeyFile) -> Result<Option<Text>, NoMemory>
    ensures { IfOk result (λ path. path ≡ spec.status_file_of file.now) }
{
    if let Some(path) = value_with_form(file, Form::StatusFile, "system", "statusfile") {
        return Ok(Some(Text::new(alloc, path)?));
    }
    match data_directory_of(file) {
        Some(directory) => Ok(Some(central_file(alloc, directory)?)),
        None => Ok(None),
    }
}

/// The program at a key of `[handlers]`, where there is one.
pub fn handler_of<'a>(file: &'a KeyFile, key: &str) -> Option<&'a str>
    ensures { option_copied result ≡ spec.handler_of file.entry.now key.now }
{
    value_with_form(file, Form::Path, "handlers", key)
}

// The program at a key of `[x-helpers]`, or else the one that is installed under this name.
fn helper_of(alloc: Global, file: &KeyFile, key: &str) -> Result<Text, NoMemory>
    ensures { IfOk result (λ path. path ≡ spec.helper_of file.now key.now) }
{
    match value_with_form(file, Form::Path, "x-helpers", key) {
        Some(path) => Text::new(alloc, path),
        None => Ok(Text::from_string(format!(in alloc; "/usr/libexec/rauc/{key}")?)),
    }
}

/// The programs for bundles.
pub fn helpers_of(alloc: Global, file: &KeyFile) -> Result<Helpers, NoMemory>
    ensures { IfOk result (λ helpers. helpers ≡ spec.helpers_of file.now) }
{
    let check = helper_of(alloc, file, "bundle-check")?;
    let mount = helper_of(alloc, file, "bundle-mount")?;
    let umount = helper_of(alloc, file, "bundle-umount")?;
    Ok(Helpers {
        check,
        mount,
        umount,
    })
}

/// The boot loader, with its settings.
pub fn boot_of(alloc: Global, file: &KeyFile) -> Result<BootKind, NoMemory>
    ensures { IfOk result (λ boot. boot ≡ spec.boot_of file.now) }
{
    match loader_of(file) {
        "grub" => Ok(BootKind::Grub {
            file: Text::new(alloc, grubenv_of(file))?,
        }),
        "uboot" => Ok(BootKind::Uboot {
            attempts: attempts_in(file, "boot-attempts"),
            primary_attempts: attempts_in(file, "boot-attempts-primary"),
        }),
        "barebox" => Ok(BootKind::Barebox {
            state: text_if_any(alloc, file.get("system", "barebox-statename"))?,
            attempts: attempts_in(file, "boot-attempts"),
            primary_attempts: attempts_in(file, "boot-attempts-primary"),
        }),
        "efi" => Ok(BootKind::Efi {
            use_next: flag_in(file, "system", "efi-use-bootnext", true),
        }),
        "custom" => Ok(BootKind::Custom {
            program: custom_program(alloc, file)?,
        }),
        _ => Ok(BootKind::Noop),
    }
}

// The program of a custom boot loader.
fn custom_program(alloc: Global, file: &KeyFile) -> Result<Text, NoMemory>
    ensures { IfOk result (λ path. path ≡ spec.custom_program_of file.now) }
{
    match handler_of(file, "bootloader-custom-backend") {
        Some(path) => Text::new(alloc, path),
        None => Ok(Text::empty(alloc)),
    }
}

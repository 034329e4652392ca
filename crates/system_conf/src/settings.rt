ghost use Rattle.std.specs.Prelude.{◌≡◌, IfOk};
ghost use Rattle.system_conf.specs.Settings as spec;

use crate::Helpers;
use crate::values::{
    boot_of, compatible_of, data_directory_of, handler_of, helpers_of, mount_prefix_of,
    status_file_of,
};
use boot_model::BootKind;
use keyfile::KeyFile;
use std::alloc::Global;
use updater_text::{NoMemory, Text, text_if_any};

/// Where the updater keeps files, and mounts bundles.
#[derive(Drop)]
pub struct Paths {
    pub mount_prefix: Text,
    pub status_file: Option<Text>,
    pub data_directory: Option<Text>,
}

/// The programs that the updater runs.
#[derive(Drop)]
pub struct Programs {
    pub pre_install: Option<Text>,
    pub post_install: Option<Text>,
    pub helpers: Helpers,
}

/// What a configuration says besides its slots.
#[derive(Drop)]
pub struct Settings {
    pub compatible: Text,
    pub boot: BootKind,
    pub paths: Paths,
    pub programs: Programs,
}

fn read_paths(alloc: Global, file: &KeyFile) -> Result<Paths, NoMemory>
    ensures { IfOk result (λ paths. paths ≡ spec.paths_of file.now) }
{
    let mount_prefix = Text::new(alloc, mount_prefix_of(file))?;
    let status_file = status_file_of(alloc, file)?;
    let data_directory = text_if_any(alloc, data_directory_of(file))?;
    Ok(Paths {
        mount_prefix,
        status_file,
        data_directory,
    })
}

fn read_programs(alloc: Global, file: &KeyFile) -> Result<Programs, NoMemory>
    ensures { IfOk result (λ programs. programs ≡ spec.programs_of file.now) }
{
    let pre_install = text_if_any(alloc, handler_of(file, "pre-install"))?;
    let post_install = text_if_any(alloc, handler_of(file, "post-install"))?;
    let helpers = helpers_of(alloc, file)?;
    Ok(Programs {
        pre_install,
        post_install,
        helpers,
    })
}

/// What a configuration says besides its slots, with the defaults.
pub fn read_settings(alloc: Global, file: &KeyFile) -> Result<Settings, NoMemory>
    ensures { IfOk result (λ settings. settings ≡ spec.settings_of file.now) }
{
    let paths = read_paths(alloc, file)?;
    let programs = read_programs(alloc, file)?;
    let compatible = Text::new(alloc, compatible_of(file))?;
    let boot = boot_of(alloc, file)?;
    Ok(Settings {
        compatible,
        boot,
        paths,
        programs,
    })
}

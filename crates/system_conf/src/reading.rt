ghost use Rattle.std.specs.Prelude.{◌≡◌, None, IfOk, map};
ghost use Rattle.std.specs.List.{IsDistinct};
ghost use Rattle.std.specs.Str.{bytes_eq};
ghost use Rattle.system_conf.specs.Configuration.{configuration};
ghost use Rattle.system_conf.specs.Slots.{slots_of};
ghost use Rattle.system_conf.specs.Reads.{Checks, Reads, system_configuration};
ghost use Rattle.system_conf.specs.Parents.{ChainsEndAtRoots, RootsTold};
ghost use Rattle.system_conf.specs.Refusals as spec;
ghost use Rattle.system_conf.specs.Settings.{settings_of};

use crate::duplicates::{same_bootname, same_device};
use crate::keys::{bad_value, left_out, missing, unknown_key};
use crate::own_files::device_is_file;
use crate::parents::{child_boot_name, no_parent, parent_cycle};
use crate::read_slots::read_slots;
use crate::settings::{Settings, read_settings};
use crate::slot_limit::too_many;
use crate::slot_names::bad_slot_name;
use crate::{ConfRefusal, Reader, Slot, System};
use conf_forms::slot_groups;
use keyfile::KeyFile;
use std::alloc::Global;
use updater_text::{Items, Lack, NoMemory};

/// Reads a configuration, as RAUC's chapter Reference describes `system.conf`, or refuses it with the
/// first refusal that holds, in the order of `ConfRefusal`. `ParentCycle` names the first slot that
/// lies under no root; each slot of a system lies under one.
#[tactic(auto, using(crate::proofs::Rootless::chains_read, crate::proofs::Rootless::roots_told))]
pub fn read_system(alloc: Global, file: &KeyFile) -> Result<System, Lack<ConfRefusal>>
    ensures reads { Reads (spec.system_of file.now) result }
    ensures chains { ChainsEndAtRoots (slots_of file.now) }
    ensures roots { RootsTold (slots_of file.now) result }
{
    let groups = slot_groups(alloc, file)?;
    let reader = Reader {
        alloc,
        file,
        slots: groups.as_slice(),
    };
    read_whole(&reader)
}

// Reads a configuration, or refuses it.
fn read_whole(reader: &Reader<'_>) -> Result<System, Lack<ConfRefusal>>
    requires { IsDistinct bytes_eq (map (λ g. g.0) reader.now.file.now) }
    ensures { Reads (spec.system_of reader.now.file.now) result }
{
    check_groups(reader)?;
    let slots = read_slots(reader)?;
    check_slots(reader, slots.as_slice())?;
    match read_settings(reader.alloc, reader.file) {
        Ok(settings) => Ok(system_with(reader, settings, slots)),
        Err(_) => Err(Lack::NoMemory),
    }
}

// Refuses a configuration by its groups.
fn check_groups(reader: &Reader<'_>) -> Result<(), Lack<ConfRefusal>>
    ensures { Checks (spec.first_some (spec.group_refusals reader.now.file.now)) result }
{
    match group_refusal(reader) {
        Ok(None) => Ok(()),
        Ok(Some(why)) => Err(Lack::Refused(why)),
        Err(_) => Err(Lack::NoMemory),
    }
}

// Refuses a configuration by its slots.
fn check_slots(reader: &Reader<'_>, slots: &[Slot]) -> Result<(), Lack<ConfRefusal>>
    ensures { Checks (spec.first_some (spec.slot_refusals reader.now.file.now slots.now)) result }
{
    match slot_refusal(reader, slots) {
        Ok(None) => Ok(()),
        Ok(Some(why)) => Err(Lack::Refused(why)),
        Err(_) => Err(Lack::NoMemory),
    }
}

// The first refusal by the groups.
fn group_refusal(reader: &Reader<'_>) -> Result<Option<ConfRefusal>, NoMemory>
    ensures { IfOk result (λ refusal. refusal ≡ spec.first_some (spec.group_refusals reader.now.file.now)) }
{
    if let Some(why) = missing(reader)? {
        return Ok(Some(why));
    }
    if let Some(why) = unknown_key(reader)? {
        return Ok(Some(why));
    }
    if let Some(why) = left_out(reader)? {
        return Ok(Some(why));
    }
    if let Some(why) = bad_value(reader)? {
        return Ok(Some(why));
    }
    bad_slot_name(reader.alloc, reader.file)
}

// The first refusal by the slots.
fn slot_refusal(reader: &Reader<'_>, slots: &[Slot]) -> Result<Option<ConfRefusal>, NoMemory>
    ensures { IfOk result (λ refusal. refusal ≡ spec.first_some (spec.slot_refusals reader.now.file.now slots.now)) }
{
    if let Some(why) = too_many(slots) {
        return Ok(Some(why));
    }
    if let Some(why) = same_device(reader.alloc, slots)? {
        return Ok(Some(why));
    }
    if let Some(why) = same_bootname(reader.alloc, slots)? {
        return Ok(Some(why));
    }
    if let Some(why) = no_parent(reader)? {
        return Ok(Some(why));
    }
    if let Some(why) = parent_cycle(reader.alloc, slots)? {
        return Ok(Some(why));
    }
    if let Some(why) = child_boot_name(reader.alloc, slots)? {
        return Ok(Some(why));
    }
    device_is_file(reader, slots)
}

// The system of a configuration that is not refused.
fn system_with(reader: &Reader<'_>, settings: Settings, slots: Items<Slot>) -> System
    requires differ { IsDistinct bytes_eq (map (λ g. g.0) reader.now.file.now) }
    requires settings { settings ≡ settings_of reader.now.file.now }
    requires slots { slots ≡ slots_of reader.now.file.now }
    requires groups_pass { spec.first_some (spec.group_refusals reader.now.file.now) ≡ None }
    requires slots_pass { spec.first_some (spec.slot_refusals reader.now.file.now slots) ≡ None }
    ensures { system_configuration result ≡ configuration reader.now.file.now }
{
    let Settings {
        compatible,
        boot,
        paths,
        programs,
    } = settings;
    System {
        compatible,
        boot,
        mount_prefix: paths.mount_prefix,
        status_file: paths.status_file,
        data_directory: paths.data_directory,
        pre_install: programs.pre_install,
        post_install: programs.post_install,
        helpers: programs.helpers,
        slots,
    }
}

ghost use Rattle.std.specs.Prelude.{◌≡◌, ◌++◌, [], IfOk, OnOk, map};
ghost use Rattle.std.specs.Option.{option_to_list};
ghost use Rattle.system_conf.specs.Reads.{system_configuration};
ghost use Rattle.child_steps.specs.Children as spec;
ghost use Rattle.child_steps.specs.Hooks as hooks;

use crate::helper::mount_point;
use machine::Spares;
use std::alloc::Global;
use system_conf::{Slot, System};
use updater_text::{Items, NoMemory, Text};

// The devices of the slots.
fn devices(alloc: Global, slots: &[Slot]) -> Result<Items<Text>, NoMemory>
    ensures { IfOk result (λ found. found ≡ map (λ s. s.device) slots.now) }
{
    let mut found = Items::new(alloc);
    for slot in slots {
        let device = slot.device.copy(alloc)?;
        found.push(device)?;
    }
    Ok(found)
}

// Puts a text at the end, where there is one.
fn push_text(items: &mut Items<Text>, alloc: Global, text: &Option<Text>) -> Result<(), NoMemory>
    ensures { OnOk result (items.new ≡ items.old ++ option_to_list text.now) }
{
    if let Some(text) = text {
        let text = text.copy(alloc)?;
        items.push(text)?;
    }
    Ok(())
}

// The status file, where there is one, and this file or directory, where there is one.
fn files(
    alloc: Global,
    status_file: &Option<Text>,
    more: &Option<Text>,
) -> Result<Items<Text>, NoMemory>
    ensures { IfOk result (λ found. found ≡ option_to_list status_file.now ++ option_to_list more.now) }
{
    let mut found = Items::new(alloc);
    push_text(&mut found, alloc, status_file)?;
    push_text(&mut found, alloc, more)?;
    Ok(found)
}

/// What a helper must leave alone: the devices of all slots, the status file, this file or directory
/// where there is one, and the boot variables.
pub fn helper_spares(
    alloc: Global,
    system: &System,
    more: &Option<Text>,
) -> Result<Spares, NoMemory>
    ensures { IfOk result (λ spares. spares ≡ spec.helper_spares (system_configuration system.now) (option_to_list more.now)) }
{
    let disks = devices(alloc, system.slots.as_slice())?;
    let files = files(alloc, &system.status_file, more)?;
    Ok(Spares {
        disks,
        files,
        boot: true,
    })
}

/// What a hook of a slot or a handler must leave alone: these disks, the status file, what is mounted,
/// and the boot variables.
pub fn install_spares(
    alloc: Global,
    system: &System,
    disks: Items<Text>,
) -> Result<Spares, NoMemory>
    ensures { let c = system_configuration system.now in
        IfOk result (λ spares. spares ≡ hooks.install_spares c disks) }
{
    let point = Some(mount_point(alloc, system)?);
    let files = files(alloc, &system.status_file, &point)?;
    Ok(Spares {
        disks,
        files,
        boot: true,
    })
}

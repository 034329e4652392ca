ghost use Rattle.std.specs.Prelude.{◌≡◌, ◌∷◌, ◌++◌, [], IfOk, codes};
ghost use Rattle.std.specs.Option.{option_to_list};
ghost use Rattle.system_conf.specs.Reads.{system_configuration};
ghost use Rattle.child_steps.specs.Children as spec;

use crate::spared::helper_spares;
use machine::{Child, ChildClass};
use std::alloc::Global;
use system_conf::System;
use updater_text::{Items, NoMemory, Text};

/// The directory in which a bundle is mounted: `bundle` under the mount prefix, without a slash at its
/// end.
pub fn mount_point(alloc: Global, system: &System) -> Result<Text, NoMemory>
    ensures { IfOk result (λ path. path ≡ spec.mount_point (system_configuration system.now)) }
{
    bundle_under(alloc, system.mount_prefix.as_str())
}

fn bundle_under(alloc: Global, prefix: &str) -> Result<Text, NoMemory>
    ensures { IfOk result (λ path. path ≡ prefix.now ++ codes "/bundle") }
{
    Ok(Text::from_string(format!(in alloc; "{prefix}/bundle")?))
}

// A helper with these arguments. It must leave this file or directory alone, where there is one.
fn helper(
    alloc: Global,
    system: &System,
    program: &Text,
    args: Items<Text>,
    spared: &Option<Text>,
) -> Result<Child, NoMemory>
    ensures { IfOk result (λ child. child ≡ spec.helper (system_configuration system.now) program.now args (option_to_list spared.now)) }
{
    let program = program.copy(alloc)?;
    let spares = helper_spares(alloc, system, spared)?;
    Ok(Child {
        class: ChildClass::Helper,
        program,
        args,
        env: Items::new(alloc),
        spares,
    })
}

/// One argument.
pub fn one(alloc: Global, first: Text) -> Result<Items<Text>, NoMemory>
    ensures { IfOk result (λ args. args ≡ first ∷ []) }
{
    let mut args = Items::new(alloc);
    args.push(first)?;
    Ok(args)
}

// Two arguments.
fn two(alloc: Global, first: Text, second: Text) -> Result<Items<Text>, NoMemory>
    ensures { IfOk result (λ args. args ≡ first ∷ second ∷ []) }
{
    let mut args = one(alloc, first)?;
    args.push(second)?;
    Ok(args)
}

/// The child that checks whether a bundle is trusted: the helper `check` with the bundle's path. It
/// must leave the mount point alone, as it must all slots, the status file and the boot variables.
pub fn check_child(alloc: Global, system: &System, bundle: &str) -> Result<Child, NoMemory>
    ensures { IfOk result (λ child. child ≡ spec.check_child (system_configuration system.now) bundle.now) }
{
    let bundle = Text::new(alloc, bundle)?;
    let args = one(alloc, bundle)?;
    let spared = Some(mount_point(alloc, system)?);
    helper(alloc, system, &system.helpers.check, args, &spared)
}

/// The child that mounts a bundle: the helper `mount` with the bundle's path and the mount point. It
/// must leave all slots, the status file and the boot variables alone.
pub fn mount_child(alloc: Global, system: &System, bundle: &str) -> Result<Child, NoMemory>
    ensures { IfOk result (λ child. child ≡ spec.mount_child (system_configuration system.now) bundle.now) }
{
    let bundle = Text::new(alloc, bundle)?;
    let point = mount_point(alloc, system)?;
    let args = two(alloc, bundle, point)?;
    helper(alloc, system, &system.helpers.mount, args, &None)
}

/// The child that unmounts a bundle: the helper `umount` with the mount point. It must leave all slots,
/// the status file and the boot variables alone.
pub fn umount_child(alloc: Global, system: &System) -> Result<Child, NoMemory>
    ensures { IfOk result (λ child. child ≡ spec.umount_child (system_configuration system.now)) }
{
    let point = mount_point(alloc, system)?;
    let args = one(alloc, point)?;
    helper(alloc, system, &system.helpers.umount, args, &None)
}

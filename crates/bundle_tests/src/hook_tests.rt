use child_steps::{
    HandlerContext, HandlerKind, HookContext, HookKind, check_hook, handler, install_spares,
    slot_hook,
};
use keyfile::read;
use machine::Child;
use manifest::{Manifest, read_manifest};
use slot_graph::{Booted, Job};
use std::alloc::Global;
use std::test::Fail;
use system_conf::{System, read_system};
use updater_text::{Items, NoMemory, Text};

const CONF: &str = "[system]
compatible=Test System
bootloader=noop
mountprefix=/mnt/r/
statusfile=/s/status
[handlers]
pre-install=/h/pre
post-install=/h/post
[slot.rootfs.0]
device=/dev/a
type=ext4
bootname=A
[slot.appfs.0]
device=/dev/c
parent=rootfs.0
[slot.rootfs.1]
device=/dev/b
type=ext4
[slot.appfs.1]
device=/dev/d
type=ubifs
parent=rootfs.1
";

const VERSIONED: &str = "[update]
compatible=Test Bundle
version=2024.05
[hooks]
filename=hook.sh
hooks=install-check
[image.rootfs]
filename=r.img
size=3
sha256=BA7816BF8F01CFEA414140DE5DAE2223B00361A396177A9CB410FF61F20015AD
[image.appfs]
hooks=install
";

const UNVERSIONED: &str = "[update]
compatible=
[hooks]
filename=hook.sh
[image.appfs]
hooks=pre-install
filename=a.img
size=18446744073709551615
sha256=ba7816bf8f01cfea414140de5dae2223b00361a396177a9cb410ff61f20015ad
";

const CHECK: &str = "/mnt/r/bundle/hook.sh install-check
RAUC_SYSTEM_COMPATIBLE=Test System
RAUC_MF_COMPATIBLE=Test Bundle
RAUC_MF_VERSION=2024.05
RAUC_MOUNT_PREFIX=/mnt/r
RAUC_BUNDLE_MOUNT_POINT=/mnt/r/bundle
disks /dev/a /dev/c /dev/b /dev/d
files /s/status /mnt/r/bundle
boot
";

const CHECK_UNVERSIONED: &str = "/mnt/r/bundle/hook.sh install-check
RAUC_SYSTEM_COMPATIBLE=Test System
RAUC_MF_COMPATIBLE=
RAUC_MOUNT_PREFIX=/mnt/r
RAUC_BUNDLE_MOUNT_POINT=/mnt/r/bundle
disks /dev/a /dev/c /dev/b /dev/d
files /s/status /mnt/r/bundle
boot
";

const PRE: &str = "/mnt/r/bundle/hook.sh slot-pre-install
RAUC_SYSTEM_COMPATIBLE=Test System
RAUC_MF_COMPATIBLE=Test Bundle
RAUC_MF_VERSION=2024.05
RAUC_MOUNT_PREFIX=/mnt/r
RAUC_BUNDLE_MOUNT_POINT=/mnt/r/bundle
RAUC_SLOT_NAME=rootfs.0
RAUC_SLOT_CLASS=rootfs
RAUC_SLOT_TYPE=ext4
RAUC_SLOT_DEVICE=/dev/a
RAUC_SLOT_BOOTNAME=A
RAUC_IMAGE_NAME=/mnt/r/bundle/r.img
RAUC_IMAGE_SIZE=3
RAUC_IMAGE_DIGEST=ba7816bf8f01cfea414140de5dae2223b00361a396177a9cb410ff61f20015ad
RAUC_IMAGE_CLASS=rootfs
disks /dev/c
files /s/status /mnt/r/bundle
boot
";

const INSTALL: &str = "/mnt/r/bundle/hook.sh slot-install
RAUC_SYSTEM_COMPATIBLE=Test System
RAUC_MF_COMPATIBLE=Test Bundle
RAUC_MF_VERSION=2024.05
RAUC_MOUNT_PREFIX=/mnt/r
RAUC_BUNDLE_MOUNT_POINT=/mnt/r/bundle
RAUC_SLOT_NAME=appfs.1
RAUC_SLOT_CLASS=appfs
RAUC_SLOT_TYPE=ubifs
RAUC_SLOT_DEVICE=/dev/d
RAUC_SLOT_PARENT=rootfs.1
RAUC_IMAGE_CLASS=appfs
disks /dev/c
files /s/status /mnt/r/bundle
boot
";

const POST: &str = "/mnt/r/bundle/hook.sh slot-post-install
RAUC_SYSTEM_COMPATIBLE=Test System
RAUC_MF_COMPATIBLE=
RAUC_MOUNT_PREFIX=/mnt/r
RAUC_BUNDLE_MOUNT_POINT=/mnt/r/bundle
RAUC_SLOT_NAME=appfs.0
RAUC_SLOT_CLASS=appfs
RAUC_SLOT_TYPE=raw
RAUC_SLOT_DEVICE=/dev/c
RAUC_SLOT_PARENT=rootfs.0
RAUC_IMAGE_NAME=/mnt/r/bundle/a.img
RAUC_IMAGE_SIZE=18446744073709551615
RAUC_IMAGE_DIGEST=ba7816bf8f01cfea414140de5dae2223b00361a396177a9cb410ff61f20015ad
RAUC_IMAGE_CLASS=appfs
disks /dev/c
files /s/status /mnt/r/bundle
boot
";

const BEFORE: &str = "/h/pre
RAUC_UPDATE_SOURCE=/mnt/r/bundle
RAUC_MOUNT_PREFIX=/mnt/r
RAUC_BUNDLE_MOUNT_POINT=/mnt/r/bundle
RAUC_CURRENT_BOOTNAME=A
RAUC_SLOTS=1 2 3 4
RAUC_TARGET_SLOTS=3 4
RAUC_SLOT_NAME_1=rootfs.0
RAUC_SLOT_CLASS_1=rootfs
RAUC_SLOT_DEVICE_1=/dev/a
RAUC_SLOT_TYPE_1=ext4
RAUC_SLOT_BOOTNAME_1=A
RAUC_SLOT_NAME_2=appfs.0
RAUC_SLOT_CLASS_2=appfs
RAUC_SLOT_DEVICE_2=/dev/c
RAUC_SLOT_TYPE_2=raw
RAUC_SLOT_PARENT_2=rootfs.0
RAUC_SLOT_NAME_3=rootfs.1
RAUC_SLOT_CLASS_3=rootfs
RAUC_SLOT_DEVICE_3=/dev/b
RAUC_SLOT_TYPE_3=ext4
RAUC_SLOT_NAME_4=appfs.1
RAUC_SLOT_CLASS_4=appfs
RAUC_SLOT_DEVICE_4=/dev/d
RAUC_SLOT_TYPE_4=ubifs
RAUC_SLOT_PARENT_4=rootfs.1
disks /dev/c
files /s/status /mnt/r/bundle
boot
";

const AFTER: &str = "/h/post
RAUC_UPDATE_SOURCE=/mnt/r/bundle
RAUC_MOUNT_PREFIX=/mnt/r
RAUC_BUNDLE_MOUNT_POINT=/mnt/r/bundle
RAUC_SLOTS=1 2 3 4
RAUC_TARGET_SLOTS=
RAUC_SLOT_NAME_1=rootfs.0
RAUC_SLOT_CLASS_1=rootfs
RAUC_SLOT_DEVICE_1=/dev/a
RAUC_SLOT_TYPE_1=ext4
RAUC_SLOT_BOOTNAME_1=A
RAUC_SLOT_NAME_2=appfs.0
RAUC_SLOT_CLASS_2=appfs
RAUC_SLOT_DEVICE_2=/dev/c
RAUC_SLOT_TYPE_2=raw
RAUC_SLOT_PARENT_2=rootfs.0
RAUC_SLOT_NAME_3=rootfs.1
RAUC_SLOT_CLASS_3=rootfs
RAUC_SLOT_DEVICE_3=/dev/b
RAUC_SLOT_TYPE_3=ext4
RAUC_SLOT_NAME_4=appfs.1
RAUC_SLOT_CLASS_4=appfs
RAUC_SLOT_DEVICE_4=/dev/d
RAUC_SLOT_TYPE_4=ubifs
RAUC_SLOT_PARENT_4=rootfs.1
disks /dev/c
files /s/status /mnt/r/bundle
boot
";

// Puts a line of words.
fn push_line(text: &mut String, first: &str, words: &[Text]) -> Result<(), NoMemory> {
    text.push_str(first)?;
    for word in words {
        text.push_str(" ")?;
        text.push_str(word.as_str())?;
    }
    text.push_str("\n")?;
    Ok(())
}

fn push_vars(text: &mut String, child: &Child) -> Result<(), NoMemory> {
    for var in child.env.as_slice() {
        text.push_str(var.name.as_str())?;
        text.push_str("=")?;
        text.push_str(var.value.as_str())?;
        text.push_str("\n")?;
    }
    Ok(())
}

// A child as text: its words, its variables, and what it must leave alone.
fn push_child(text: &mut String, child: &Child) -> Result<(), NoMemory> {
    push_line(text, child.program.as_str(), child.args.as_slice())?;
    push_vars(text, child)?;
    push_line(text, "disks", child.spares.disks.as_slice())?;
    push_line(text, "files", child.spares.files.as_slice())?;
    if child.spares.boot {
        text.push_str("boot\n")?;
    }
    Ok(())
}

fn is_child(alloc: Global, child: &Child, wanted: &str) -> bool {
    let mut text = String::new(alloc);
    push_child(&mut text, child).is_ok() && text.as_str() == wanted
}

// What hooks of slots and handlers are to leave alone here.
fn disks(alloc: Global) -> Result<Items<Text>, NoMemory> {
    let disk = Text::new(alloc, "/dev/c")?;
    let mut disks = Items::new(alloc);
    disks.push(disk)?;
    Ok(disks)
}

fn hook_context(
    alloc: Global,
    system: &System,
    manifest: Manifest,
    job: Job,
) -> Result<HookContext, NoMemory> {
    let disks = disks(alloc)?;
    let spares = install_spares(alloc, system, disks)?;
    Ok(HookContext {
        manifest,
        job,
        spares,
    })
}

fn manifest_of(alloc: Global, text: &str) -> Option<Manifest> {
    match read(alloc, text.as_bytes()) {
        Ok(file) => read_manifest(alloc, &file).ok(),
        Err(_) => None,
    }
}

fn is_check(alloc: Global, system: &System, manifest: &Manifest, wanted: &str) -> bool {
    if manifest.hook_file.is_none() {
        return false;
    }
    match check_hook(alloc, system, manifest) {
        Ok(child) => is_child(alloc, &child, wanted),
        Err(_) => false,
    }
}

fn is_checked(alloc: Global, system: &System, manifest: &str, wanted: &str) -> bool {
    match manifest_of(alloc, manifest) {
        Some(manifest) => is_check(alloc, system, &manifest, wanted),
        None => false,
    }
}

fn is_hook(
    alloc: Global,
    system: &System,
    context: &HookContext,
    which: HookKind,
    wanted: &str,
) -> bool {
    if context.manifest.hook_file.is_none() {
        return false;
    }
    match slot_hook(alloc, system, context, which) {
        Ok(child) => is_child(alloc, &child, wanted),
        Err(_) => false,
    }
}

// Whether the hook for the image at a place and the slot at a place is this child.
fn is_hooked(
    alloc: Global,
    system: &System,
    manifest: &str,
    places: (usize, usize),
    which: HookKind,
    wanted: &str,
) -> bool {
    let (image, slot) = places;
    let job = Job {
        image,
        slot,
        root: 0,
    };
    let Some(manifest) = manifest_of(alloc, manifest) else {
        return false;
    };
    match hook_context(alloc, system, manifest, job) {
        Ok(context) => is_hook(alloc, system, &context, which, wanted),
        Err(_) => false,
    }
}

fn handler_context(
    alloc: Global,
    system: &System,
    booted: Booted,
    targets: &[usize],
) -> Result<HandlerContext, NoMemory> {
    let disks = disks(alloc)?;
    let spares = install_spares(alloc, system, disks)?;
    let mut jobs = Items::new(alloc);
    for slot in targets {
        jobs.push(Job {
            image: 0,
            slot: *slot,
            root: 0,
        })?;
    }
    Ok(HandlerContext {
        booted,
        jobs,
        spares,
    })
}

fn is_handler(
    alloc: Global,
    system: &System,
    context: &HandlerContext,
    which: HandlerKind,
    wanted: &str,
) -> bool {
    if system.pre_install.is_none() || system.post_install.is_none() {
        return false;
    }
    match handler(alloc, system, context, which) {
        Ok(child) => is_child(alloc, &child, wanted),
        Err(_) => false,
    }
}

fn is_handled(
    alloc: Global,
    system: &System,
    booted: Booted,
    targets: &[usize],
    which: HandlerKind,
    wanted: &str,
) -> bool {
    match handler_context(alloc, system, booted, targets) {
        Ok(context) => is_handler(alloc, system, &context, which, wanted),
        Err(_) => false,
    }
}

fn are_hooks(alloc: Global, system: &System) -> bool {
    is_checked(alloc, system, VERSIONED, CHECK)
        && is_checked(alloc, system, UNVERSIONED, CHECK_UNVERSIONED)
        && is_hooked(alloc, system, VERSIONED, (0, 0), HookKind::Pre, PRE)
        && is_hooked(alloc, system, VERSIONED, (1, 3), HookKind::Install, INSTALL)
        && is_hooked(alloc, system, UNVERSIONED, (0, 1), HookKind::Post, POST)
}

fn are_handlers(alloc: Global, system: &System) -> bool {
    let booted = Booted::Slot(0);
    is_handled(alloc, system, booted, &[2, 3], HandlerKind::Pre, BEFORE)
        && is_handled(
            alloc,
            system,
            Booted::Slot(2),
            &[],
            HandlerKind::Post,
            AFTER,
        )
        && is_handled(
            alloc,
            system,
            Booted::External,
            &[],
            HandlerKind::Post,
            AFTER,
        )
}

#[test]
fn hooks_and_handlers_are_as_written(rt: HostRuntime) -> Result<(), Fail> {
    let alloc = rt.alloc();
    let file = read(alloc, CONF.as_bytes())?;
    let system = read_system(alloc, &file)?;
    assert!(rt; are_hooks(alloc, &system));
    assert!(rt; are_handlers(alloc, &system));
    Ok(())
}

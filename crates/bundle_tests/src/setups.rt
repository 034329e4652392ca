use boot_model::{BootKind, Vars};
use machine::{Ended, copy_bytes};
use machine_bench::{Bench, Script, Setup};
use std::alloc::Global;
use undo_log::Effect;
use updater_text::{Items, NoMemory, Text};

pub const CHECK: &str = "/usr/libexec/rauc/bundle-check";

pub const MOUNT: &str = "/usr/libexec/rauc/bundle-mount";

pub const UMOUNT: &str = "/bin/umount";

const MANIFEST: &str = "/mnt/r/bundle/manifest.raucm";

fn empty_setup(alloc: Global) -> Setup {
    Setup {
        disks: Items::new(alloc),
        files: Items::new(alloc),
        boot: BootKind::Noop,
        vars: Vars::new(alloc),
        scripts: Items::new(alloc),
        fails: Items::new(alloc),
        stop: None,
        now: 0,
    }
}

// The mount puts a manifest, where there is one.
fn push_manifest(
    effects: &mut Items<Effect>,
    alloc: Global,
    manifest: &str,
) -> Result<(), NoMemory> {
    if manifest.is_empty() {
        return Ok(());
    }
    let path = Text::new(alloc, MANIFEST)?;
    let bytes = copy_bytes(alloc, manifest.as_bytes())?;
    effects.push(Effect::PutFile { path, bytes })
}

fn push_script(
    scripts: &mut Items<Script>,
    alloc: Global,
    name: &str,
    ended: Ended,
    manifest: &str,
) -> Result<(), NoMemory> {
    let program = Text::new(alloc, name)?;
    let mut effects = Items::new(alloc);
    push_manifest(&mut effects, alloc, manifest)?;
    scripts.push(Script {
        program,
        args: Items::new(alloc),
        ended,
        out: Items::new(alloc),
        err: Items::new(alloc),
        effects,
    })
}

fn push_numbers(numbers: &mut Items<u64>, more: &[u64]) -> Result<(), NoMemory> {
    for number in more {
        numbers.push(*number)?;
    }
    Ok(())
}

fn fill_setup(
    setup: &mut Setup,
    alloc: Global,
    ends: [Ended; 3],
    manifest: &str,
    fails: &[u64],
) -> bool {
    let [check, mount, umount] = ends;
    let scripts = &mut setup.scripts;
    push_script(scripts, alloc, CHECK, check, "").is_ok()
        && push_script(scripts, alloc, MOUNT, mount, manifest).is_ok()
        && push_script(scripts, alloc, UMOUNT, umount, "").is_ok()
        && push_numbers(&mut setup.fails, fails).is_ok()
}

// A machine on which the three children end so, the mount puts this manifest where it is not empty,
// and the calls with these numbers fail.
pub fn bench_of(alloc: Global, ends: [Ended; 3], manifest: &str, fails: &[u64]) -> Option<Bench> {
    let mut setup = empty_setup(alloc);
    let filled = fill_setup(&mut setup, alloc, ends, manifest, fails);
    match Bench::new(alloc, setup) {
        Ok(bench) if filled => Some(bench),
        _ => None,
    }
}

// The hook ends so, and puts this out as errors; its call may fail.
fn push_hook(
    setup: &mut Setup,
    alloc: Global,
    program: &str,
    ended: Ended,
    err: &[u8],
    fails: bool,
) -> Result<(), NoMemory> {
    let program = Text::new(alloc, program)?;
    let err = copy_bytes(alloc, err)?;
    if fails {
        setup.fails.push(1)?;
    }
    setup.scripts.push(Script {
        program,
        args: Items::new(alloc),
        ended,
        out: Items::new(alloc),
        err,
        effects: Items::new(alloc),
    })
}

// A machine on which a hook ends so and puts this out as errors, or its call fails.
pub fn hook_bench(
    alloc: Global,
    program: &str,
    ended: Ended,
    err: &[u8],
    fails: bool,
) -> Option<Bench> {
    let mut setup = empty_setup(alloc);
    let filled = push_hook(&mut setup, alloc, program, ended, err, fails).is_ok();
    match Bench::new(alloc, setup) {
        Ok(bench) if filled => Some(bench),
        _ => None,
    }
}

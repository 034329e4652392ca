use crate::setups::{CHECK, MOUNT, UMOUNT, bench_of};
use child_steps::{
    BundleRefusal, Closing, MountRefusal, Mounted, close_bundle, mount_bundle, read_bundle,
};
use keyfile::read;
use machine::{Ended, Fault, RunNote, Stop};
use machine_bench::Bench;
use mark_report::{InfoEnd, InfoRefusal, info};
use std::alloc::Global;
use std::test::Fail;
use system_conf::{System, read_system};

const CONF: &[u8; 129] = b"[system]
compatible=Test
bootloader=noop
mountprefix=/mnt/r/
[x-helpers]
bundle-umount=/bin/umount
[slot.rootfs.0]
device=/dev/a
";

const MANIFEST: &str = "[update]
compatible=Test
[image.rootfs]
filename=r.img
size=3
sha256=ba7816bf8f01cfea414140de5dae2223b00361a396177a9cb410ff61f20015ad
";

// What came of reading a bundle.
#[derive(Clone, Copy, PartialEq, Eq)]
enum Seen {
    Manifest,
    NoManifest,
    BadKeys,
    BadManifest,
    Fault,
    NoMemory,
}

// What came of a bundle.
#[derive(Clone, Copy, PartialEq, Eq)]
enum Came {
    Refused(MountRefusal),
    Fault(Fault),
    NoMemory,
    Mounted(Seen, Closing),
}

// How the children end, the manifest, which calls fail; what came of it, and how many children were
// run.
type Row = ([Ended; 3], &'static str, &'static [u64], Came, usize);

const WELL: Ended = Ended::Code(0);

const ALL: [Ended; 3] = [WELL, WELL, WELL];

static ROWS: [Row; 13] = [
    (
        ALL,
        MANIFEST,
        &[],
        Came::Mounted(Seen::Manifest, Closing::Unmounted),
        3,
    ),
    (
        [Ended::Code(1), WELL, WELL],
        MANIFEST,
        &[],
        Came::Refused(MountRefusal::Untrusted {
            ended: Ended::Code(1),
        }),
        1,
    ),
    (
        [Ended::Signal, WELL, WELL],
        MANIFEST,
        &[],
        Came::Refused(MountRefusal::Untrusted {
            ended: Ended::Signal,
        }),
        1,
    ),
    (
        [WELL, Ended::Code(5), WELL],
        MANIFEST,
        &[],
        Came::Refused(MountRefusal::MountFailed {
            ended: Ended::Code(5),
        }),
        2,
    ),
    (
        ALL,
        "",
        &[],
        Came::Mounted(Seen::NoManifest, Closing::Unmounted),
        3,
    ),
    (
        ALL,
        "[",
        &[],
        Came::Mounted(Seen::BadKeys, Closing::Unmounted),
        3,
    ),
    (
        ALL,
        "[update]\n",
        &[],
        Came::Mounted(Seen::BadManifest, Closing::Unmounted),
        3,
    ),
    (
        [WELL, WELL, Ended::Code(3)],
        MANIFEST,
        &[],
        Came::Mounted(Seen::Manifest, Closing::Ended(Ended::Code(3))),
        3,
    ),
    (
        [WELL, WELL, Ended::Signal],
        "[",
        &[],
        Came::Mounted(Seen::BadKeys, Closing::Ended(Ended::Signal)),
        3,
    ),
    (ALL, MANIFEST, &[1], Came::Fault(Fault::Run), 0),
    (ALL, MANIFEST, &[2], Came::Fault(Fault::Run), 1),
    (
        ALL,
        MANIFEST,
        &[3],
        Came::Mounted(Seen::Fault, Closing::Unmounted),
        3,
    ),
    (
        ALL,
        MANIFEST,
        &[4],
        Came::Mounted(Seen::Manifest, Closing::Failed),
        2,
    ),
];

fn seen_as(refusal: &BundleRefusal) -> Seen {
    match refusal {
        BundleRefusal::NoManifest => Seen::NoManifest,
        BundleRefusal::BadKeys(_) => Seen::BadKeys,
        BundleRefusal::BadManifest(_) => Seen::BadManifest,
    }
}

fn manifest_seen(alloc: Global, m: &mut Bench, system: &System) -> Seen {
    match read_bundle(alloc, m, system) {
        Ok(_) => Seen::Manifest,
        Err(Stop::Refused(refusal)) => seen_as(&refusal),
        Err(Stop::Outside(_)) => Seen::Fault,
        Err(Stop::NoMemory) => Seen::NoMemory,
    }
}

fn came_of_mounted(alloc: Global, m: &mut Bench, system: &System, mounted: Mounted) -> Came {
    let seen = manifest_seen(alloc, m, system);
    Came::Mounted(seen, close_bundle(alloc, m, mounted))
}

fn what_came(alloc: Global, m: &mut Bench, system: &System) -> Came {
    match mount_bundle(alloc, m, system, "/b.raucb") {
        Ok(mounted) => came_of_mounted(alloc, m, system, mounted),
        Err(Stop::Refused(refusal)) => Came::Refused(refusal),
        Err(Stop::Outside(kind)) => Came::Fault(kind),
        Err(Stop::NoMemory) => Came::NoMemory,
    }
}

fn what_is_told(alloc: Global, m: &mut Bench, system: &System) -> Came {
    let InfoEnd { result, closing } = info(alloc, m, system, "/b.raucb");
    match result {
        Ok(_) => Came::Mounted(Seen::Manifest, closing),
        Err(Stop::Refused(InfoRefusal::Mount(refusal))) => Came::Refused(refusal),
        Err(Stop::Refused(InfoRefusal::Bundle(refusal))) => Came::Mounted(
            seen_as(&refusal),
            closing,
        ),
        Err(Stop::Outside(kind)) if closing == Closing::NotMounted => Came::Fault(kind),
        Err(Stop::Outside(_)) => Came::Mounted(Seen::Fault, closing),
        Err(Stop::NoMemory) => Came::NoMemory,
    }
}

fn is_run(note: &RunNote, program: &str, args: &[&str]) -> bool {
    let child = &note.child;
    let same = child.args.len() == args.len();
    let mut pairs = child.args.as_slice().iter().zip(args.iter());
    same && child.program.as_str() == program && pairs.all(|(arg, word)| arg.as_str() == *word)
}

// Whether the front of the three children was run, so many of them.
fn are_runs(runs: &[RunNote], count: usize) -> bool {
    let point = "/mnt/r/bundle";
    let checked = match runs.first() {
        Some(note) => is_run(note, CHECK, &["/b.raucb"]),
        None => true,
    };
    let mounted = match runs.get(1) {
        Some(note) => is_run(note, MOUNT, &["/b.raucb", point]),
        None => true,
    };
    let unmounted = match runs.get(2) {
        Some(note) => is_run(note, UMOUNT, &[point]),
        None => true,
    };
    runs.len() == count && checked && mounted && unmounted
}

fn has_runs(m: &Bench, count: usize) -> bool {
    match m.world() {
        Ok(world) => are_runs(world.runs.as_slice(), count),
        Err(_) => false,
    }
}

// Whether that came of it, by the calls one after another or by `info`.
fn is_right(alloc: Global, system: &System, row: &Row, by_info: bool) -> bool {
    let (ends, manifest, fails, wanted, count) = row;
    match bench_of(alloc, *ends, manifest, fails) {
        Some(mut m) => {
            let came = if by_info {
                what_is_told(alloc, &mut m, system)
            } else {
                what_came(alloc, &mut m, system)
            };
            let right = came == *wanted && has_runs(&m, *count);
            drop(m);
            right
        }
        None => false,
    }
}

fn first_wrong(alloc: Global, system: &System) -> Option<usize> {
    for (at, row) in ROWS.iter().enumerate() {
        if !is_right(alloc, system, row, false) || !is_right(alloc, system, row, true) {
            return Some(at);
        }
    }
    None
}

#[test]
fn mounts_reads_and_unmounts(rt: HostRuntime) -> Result<(), Fail> {
    let alloc = rt.alloc();
    let file = read(alloc, CONF)?;
    let system = read_system(alloc, &file)?;
    assert_eq!(rt; first_wrong(alloc, &system), None);
    Ok(())
}

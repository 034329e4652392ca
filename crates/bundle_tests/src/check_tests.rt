use crate::setups::hook_bench;
use child_steps::{CheckRefusal, check_cause, install_check};
use keyfile::read;
use machine::{Ended, Fault, Stop};
use machine_bench::Bench;
use manifest::{Manifest, read_manifest};
use std::alloc::Global;
use std::test::Fail;
use system_conf::{System, read_system};

const CONF: &str = "[system]
compatible=Test
bootloader=noop
mountprefix=/mnt/r/
[slot.rootfs.0]
device=/dev/a
";

const MANIFEST: &str = "[update]
compatible=Test
[hooks]
filename=hook.sh
hooks=install-check
[image.rootfs]
hooks=install
";

// How the hook ends, what it puts out as errors, whether its call fails; what came of it, in words,
// and how many children were run.
type Row = (Ended, &'static [u8], bool, &'static str, usize);

static ROWS: [Row; 8] = [
    (Ended::Code(0), b"too old\n", false, "", 1),
    (
        Ended::Code(10),
        b"too old\nx\n",
        false,
        "bundle rejected: too old",
        1,
    ),
    (
        Ended::Code(10),
        b"too old\r\n\xff",
        false,
        "bundle rejected: too old\r",
        1,
    ),
    (
        Ended::Code(10),
        b"too \xff\nx\n",
        false,
        "bundle rejected: ",
        1,
    ),
    (Ended::Code(10), b"", false, "bundle rejected: ", 1),
    (
        Ended::Code(3),
        b"too old\n",
        false,
        "install-check failed: status 3",
        1,
    ),
    (
        Ended::Signal,
        b"too old\n",
        false,
        "install-check failed: signal",
        1,
    ),
    (Ended::Code(10), b"too old\n", true, "run", 0),
];

fn is_told(alloc: Global, refusal: &CheckRefusal, wanted: &str) -> bool {
    match check_cause(alloc, refusal) {
        Ok(cause) => cause.as_str() == wanted,
        Err(_) => false,
    }
}

fn is_answer(
    alloc: Global,
    m: &mut Bench,
    system: &System,
    manifest: &Manifest,
    wanted: &str,
) -> bool {
    if !manifest.install_check {
        return false;
    }
    match install_check(alloc, m, system, manifest) {
        Ok(()) => wanted.is_empty(),
        Err(Stop::Refused(refusal)) => is_told(alloc, &refusal, wanted),
        Err(Stop::Outside(kind)) => kind == Fault::Run && wanted == "run",
        Err(Stop::NoMemory) => false,
    }
}

fn has_runs(m: &Bench, count: usize) -> bool {
    match m.world() {
        Ok(world) => world.runs.len() == count,
        Err(_) => false,
    }
}

fn is_right(alloc: Global, system: &System, manifest: &Manifest, row: &Row) -> bool {
    let (ended, err, fails, wanted, count) = row;
    match hook_bench(alloc, "/mnt/r/bundle/hook.sh", *ended, err, *fails) {
        Some(mut m) => {
            let told = is_answer(alloc, &mut m, system, manifest, wanted);
            let right = told && has_runs(&m, *count);
            drop(m);
            right
        }
        None => false,
    }
}

fn first_wrong(alloc: Global, system: &System, manifest: &Manifest) -> Option<usize> {
    for (at, row) in ROWS.iter().enumerate() {
        if !is_right(alloc, system, manifest, row) {
            return Some(at);
        }
    }
    None
}

#[test]
fn hooks_decide(rt: HostRuntime) -> Result<(), Fail> {
    let alloc = rt.alloc();
    let file = read(alloc, CONF.as_bytes())?;
    let system = read_system(alloc, &file)?;
    let file = read(alloc, MANIFEST.as_bytes())?;
    let manifest = read_manifest(alloc, &file)?;
    assert_eq!(rt; first_wrong(alloc, &system, &manifest), None);
    Ok(())
}

use slot_graph::{Booted, SlotState, booted, is_archive, mounts, root_of, states};
use std::alloc::Global;
use std::test::Fail;
use system_conf::{System, read_system};

const SLOTS: &[u8; 248] = b"[system]
compatible=Test
bootloader=noop
[slot.rootfs.0]
device=/dev/a
bootname=A
[slot.rootfs.1]
device=/dev/b
bootname=rootfs.0
[slot.appfs.0]
device=/dev/c
parent=rootfs.0
[slot.data.0]
device=/dev/d
parent=appfs.0
[slot.rescue.0]
device=/dev/e
";

// Command lines of the kernel, the name that is given, and what is booted then.
static BOOTS: [(&[u8], Option<&str>, Booted); 18] = [
    (b"", None, Booted::Unknown),
    (b"quiet rauc.slot=A", None, Booted::Slot(0)),
    (b"rauc.slot=rescue.0\n", None, Booted::Slot(4)),
    (b"rauc.slot=rootfs.0", None, Booted::Slot(1)),
    (b"rauc.slot=appfs.0", None, Booted::Slot(0)),
    (b"rauc.slot=B root=/dev/a", None, Booted::Unknown),
    (b"rauc.slot=A rauc.slot=rescue.0", None, Booted::Slot(0)),
    (b"xrauc.slot=A", None, Booted::Unknown),
    (b"rauc.slot=", None, Booted::Unknown),
    (b"ro\troot=/dev/d\n", None, Booted::Slot(0)),
    (b"root=/dev/z root=/dev/a", None, Booted::Unknown),
    (b"root=UUID=1 x", None, Booted::Unknown),
    (b"rauc.slot=A rauc.external", None, Booted::External),
    (b"rauc.external=1", None, Booted::Unknown),
    (
        b"rauc.external rauc.slot=rescue.0",
        Some("A"),
        Booted::Slot(0),
    ),
    (
        b"rauc.external rauc.slot=rescue.0",
        Some("rootfs.0"),
        Booted::Slot(1),
    ),
    (
        b"rauc.external rauc.slot=rescue.0",
        Some("data.0"),
        Booted::Slot(0),
    ),
    (
        b"rauc.external rauc.slot=rescue.0",
        Some("B"),
        Booted::Unknown,
    ),
];

// The states of the slots where the first one is booted.
static STATES: [SlotState; 5] = [
    SlotState::Booted,
    SlotState::Inactive,
    SlotState::Active,
    SlotState::Active,
    SlotState::Inactive,
];

static IDLE: [SlotState; 5] = [SlotState::Inactive; 5];

fn has_states(alloc: Global, system: &System, booted: Booted, wanted: &[SlotState]) -> bool {
    match states(alloc, system, booted) {
        Ok(seen) => seen.as_slice() == wanted,
        Err(_) => false,
    }
}

// Whether the slot at a place is there, and lies under that root.
fn has_root(system: &System, slot: usize, root: usize) -> bool {
    slot < system.slots.as_slice().len() && root_of(system, slot) == root
}

fn tells_roots(system: &System) -> bool {
    has_root(system, 3, 0) && has_root(system, 2, 0) && has_root(system, 4, 4)
}

#[test]
fn tells_what_runs(rt: HostRuntime) -> Result<(), Fail> {
    let alloc = rt.alloc();
    let file = keyfile::read(alloc, SLOTS)?;
    let system = read_system(alloc, &file)?;
    for (row, (cmdline, given, wanted)) in BOOTS.iter().enumerate() {
        assert!(rt;
            booted(&system, cmdline, *given) == *wanted,
            "row {row} of what is booted"
        );
    }
    assert!(rt; has_states(alloc, &system, Booted::Slot(0), &STATES));
    assert!(rt; has_states(alloc, &system, Booted::External, &IDLE));
    assert!(rt; tells_roots(&system));
    Ok(())
}

// Texts with one mount, and its device and its mount point.
static MOUNTS: [(&[u8], &[u8], &[u8]); 4] = [
    (b"/dev/b /a\\040b ext4", b"/dev/b", b"/a b"),
    (b"x\n\n \t/dev/b\t /m \n", b"/dev/b", b"/m"),
    (b"\\011\\012 \\134040 rw", b"\t\n", b"\\040"),
    (b"a\\04 \\041\\", b"a\\04", b"\\041\\"),
];

// Whether a text has one mount, of this device at this point.
fn is_mounted(alloc: Global, text: &[u8], device: &[u8], point: &[u8]) -> bool {
    match mounts(alloc, text) {
        Ok(found) => match found.as_slice() {
            [mount] => mount.device.as_slice() == device && mount.point.as_slice() == point,
            _ => false,
        },
        Err(_) => false,
    }
}

fn has_mounts(alloc: Global, text: &[u8], count: usize) -> bool {
    mounts(alloc, text).is_ok_and(|found| found.len() == count)
}

#[test]
fn reads_mounts(rt: HostRuntime) {
    let alloc = rt.alloc();
    assert!(rt; has_mounts(alloc, b"a b\nc d 0 0\ne", 2) && has_mounts(alloc, b"", 0));
    for (row, (text, device, point)) in MOUNTS.iter().enumerate() {
        assert!(rt;
            is_mounted(alloc, text, device, point),
            "row {row} of the mounts"
        );
    }
}

#[test]
fn knows_archives(rt: HostRuntime) {
    let archives = ["/a.tar", "b.tar.xz", "/d/c.catar", ".tar", "x.tar.1"];
    let others = ["/d.tar/image", "tar", "a.tars", "a.catar.xz", "/r.img"];
    let told = archives.iter().all(|path| is_archive(path))
        && !others.iter().any(|path| is_archive(path));
    assert!(rt; told);
}

use manifest::{Image, ImageFile};
use slot_graph::{AssignRefusal, Booted, Job, assign, assign_cause, states, targets};
use std::alloc::Global;
use std::test::Fail;
use system_conf::{System, read_system};
use updater_text::{Digest, Items, Lack, NoMemory, Text};

const GROUPS: &[u8; 644] = b"[system]
compatible=Test
bootloader=noop
[slot.rootfs.0]
device=/dev/a
bootname=A
[slot.rootfs.1]
device=/dev/b
bootname=B
[slot.appfs.0]
device=/dev/c
parent=rootfs.0
[slot.appfs.1]
device=/dev/d
parent=rootfs.1
[slot.data.1]
device=/dev/e
parent=rootfs.1
[slot.data.2]
device=/dev/f
parent=appfs.1
[slot.key.0]
device=/dev/g
parent=rootfs.1
readonly=true
[slot.logs.0]
device=/dev/h
parent=appfs.1
type=jffs2
[slot.rescue.3]
device=/dev/i
[slot.rescue.10]
device=/dev/j
[slot.rescue.1]
device=/dev/k
[slot.extra.0]
device=/dev/l
parent=rescue.3
[slot.alone.0]
device=/dev/m
[slot.nand.0]
device=/dev/n
parent=rootfs.1
type=nand
readonly=true
";

fn system_of(alloc: Global) -> Result<System, Fail> {
    let file = keyfile::read(alloc, GROUPS)?;
    Ok(read_system(alloc, &file)?)
}

// What is booted, and the places of the targets then.
static TARGETS: [(Booted, &[usize]); 5] = [
    (Booted::Slot(0), &[1, 10, 12]),
    (Booted::Slot(1), &[0, 10, 12]),
    (Booted::Slot(10), &[0, 8, 12]),
    (Booted::Slot(12), &[0, 10]),
    (Booted::External, &[0, 10, 12]),
];

fn has_targets(alloc: Global, system: &System, booted: Booted, wanted: &[usize]) -> bool {
    let Ok(states) = states(alloc, system, booted) else {
        return false;
    };
    targets(alloc, system, states.as_slice()).is_ok_and(|found| found.as_slice() == wanted)
}

#[test]
fn chooses_targets(rt: HostRuntime) -> Result<(), Fail> {
    let alloc = rt.alloc();
    let system = system_of(alloc)?;
    for (row, (booted, wanted)) in TARGETS.iter().enumerate() {
        assert!(rt;
            has_targets(alloc, &system, *booted, wanted),
            "row {row} of the targets"
        );
    }
    Ok(())
}

// An image by its class, its file, where it has one, and whether a hook installs it.
type Sample = (&'static str, &'static str, bool);

enum Wanted {
    Jobs(&'static [Job]),
    Cause(&'static str),
}

// Images, and what is answered for them where the first slot is booted.
static CASES: [(&[Sample], Wanted); 18] = [
    // Each image goes to the group that does not run, in their order.
    (
        &[("appfs", "a.img", false), ("rootfs", "tarball", false)],
        Wanted::Jobs(&[
            Job {
                image: 0,
                slot: 3,
                root: 1,
            },
            Job {
                image: 1,
                slot: 1,
                root: 1,
            },
        ]),
    ),
    (
        &[("rescue", "a.img", false), ("alone", "a.img", false)],
        Wanted::Jobs(&[
            Job {
                image: 0,
                slot: 10,
                root: 10,
            },
            Job {
                image: 1,
                slot: 12,
                root: 12,
            },
        ]),
    ),
    (&[], Wanted::Jobs(&[])),
    // No slot of the class, or none under a target; more than one.
    (
        &[("none", "a.img", false)],
        Wanted::Cause("no target for class none"),
    ),
    (
        &[("extra", "a.img", false)],
        Wanted::Cause("no target for class extra"),
    ),
    (
        &[("data", "r.tar", true)],
        Wanted::Cause("many targets for class data"),
    ),
    // A read-only slot, before all that is said of the image.
    (
        &[("key", "a.img", false)],
        Wanted::Cause("slot key.0 is readonly"),
    ),
    (
        &[("key", "a.img", true)],
        Wanted::Cause("slot key.0 is readonly"),
    ),
    (
        &[("nand", "r.tar", false)],
        Wanted::Cause("slot nand.0 is readonly"),
    ),
    // Archives.
    (
        &[("appfs", "r.tar", false)],
        Wanted::Cause("image r.tar is an archive"),
    ),
    (
        &[("appfs", "r.tar.gz", false)],
        Wanted::Cause("image r.tar.gz is an archive"),
    ),
    (
        &[("logs", "r.catar", false)],
        Wanted::Cause("image r.catar is an archive"),
    ),
    (
        &[("appfs", "r.tar", true)],
        Wanted::Jobs(&[Job {
            image: 0,
            slot: 3,
            root: 1,
        }]),
    ),
    // Types that are not written to.
    (
        &[("logs", "a.img", false)],
        Wanted::Cause("slot logs.0 cannot be written"),
    ),
    (
        &[("logs", "a.img", true)],
        Wanted::Jobs(&[Job {
            image: 0,
            slot: 7,
            root: 1,
        }]),
    ),
    (
        &[("logs", "", true)],
        Wanted::Jobs(&[Job {
            image: 0,
            slot: 7,
            root: 1,
        }]),
    ),
    // The first image that is refused.
    (
        &[
            ("appfs", "a.img", false),
            ("logs", "a.img", false),
            ("none", "a.img", false),
        ],
        Wanted::Cause("slot logs.0 cannot be written"),
    ),
    (
        &[("none", "a.img", false), ("key", "a.img", false)],
        Wanted::Cause("no target for class none"),
    ),
];

fn image_of(alloc: Global, sample: &Sample) -> Result<Image, NoMemory> {
    let (class, name, install) = *sample;
    let class = Text::new(alloc, class)?;
    if name.is_empty() {
        return Ok(Image {
            class,
            file: None,
            pre: false,
            install: true,
            post: false,
            adaptive: false,
        });
    }
    let name = Text::new(alloc, name)?;
    let digest = Digest([0; 32]);
    Ok(Image {
        class,
        file: Some(ImageFile {
            name,
            size: 3,
            digest,
        }),
        pre: false,
        install,
        post: false,
        adaptive: false,
    })
}

fn images_of(alloc: Global, samples: &[Sample]) -> Result<Items<Image>, NoMemory> {
    let mut images = Items::new(alloc);
    for sample in samples {
        let image = image_of(alloc, sample)?;
        images.push(image)?;
    }
    Ok(images)
}

fn has_cause(alloc: Global, system: &System, refusal: &AssignRefusal, line: &str) -> bool {
    assign_cause(alloc, system, refusal).is_ok_and(|cause| cause.as_str() == line)
}

fn is_answered(alloc: Global, system: &System, images: &[Image], wanted: &Wanted) -> bool {
    let Ok(states) = states(alloc, system, Booted::Slot(0)) else {
        return false;
    };
    match (assign(alloc, system, states.as_slice(), images), wanted) {
        (Ok(jobs), Wanted::Jobs(wanted)) => jobs.as_slice() == *wanted,
        (Err(Lack::Refused(why)), Wanted::Cause(line)) => has_cause(alloc, system, &why, line),
        _ => false,
    }
}

#[test]
fn assigns_images(rt: HostRuntime) -> Result<(), Fail> {
    let alloc = rt.alloc();
    let system = system_of(alloc)?;
    for (row, (samples, wanted)) in CASES.iter().enumerate() {
        let images = images_of(alloc, samples)?;
        assert!(rt;
            is_answered(alloc, &system, images.as_slice(), wanted),
            "row {row} of the images"
        );
    }
    Ok(())
}

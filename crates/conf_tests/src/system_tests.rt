use keyfile::{KeyFile, read};
use std::alloc::Global;
use std::test::Fail;
use system_conf::{ConfRefusal, System, conf_cause, read_system};
use updater_text::Lack;

// A system with one slot.
const SYSTEM: &str = "[system]
compatible=Test
bootloader=grub
grubenv=/env
statusfile=/status
[slot.rootfs.0]
device=/dev/a
bootname=A
";

// 63 slots beside it.
const SLOTS: &str = "\
    [slot.data.0]\ndevice=/dev/0\n[slot.data.1]\ndevice=/dev/1\n[slot.data.2]\ndevice=/dev/2\n\
    [slot.data.3]\ndevice=/dev/3\n[slot.data.4]\ndevice=/dev/4\n[slot.data.5]\ndevice=/dev/5\n\
    [slot.data.6]\ndevice=/dev/6\n[slot.data.7]\ndevice=/dev/7\n[slot.data.8]\ndevice=/dev/8\n\
    [slot.data.9]\ndevice=/dev/9\n[slot.data.10]\ndevice=/dev/10\n[slot.data.11]\ndevice=/dev/11\n\
    [slot.data.12]\ndevice=/dev/12\n[slot.data.13]\ndevice=/dev/13\n[slot.data.14]\ndevice=/dev/14\n\
    [slot.data.15]\ndevice=/dev/15\n[slot.data.16]\ndevice=/dev/16\n[slot.data.17]\ndevice=/dev/17\n\
    [slot.data.18]\ndevice=/dev/18\n[slot.data.19]\ndevice=/dev/19\n[slot.data.20]\ndevice=/dev/20\n\
    [slot.data.21]\ndevice=/dev/21\n[slot.data.22]\ndevice=/dev/22\n[slot.data.23]\ndevice=/dev/23\n\
    [slot.data.24]\ndevice=/dev/24\n[slot.data.25]\ndevice=/dev/25\n[slot.data.26]\ndevice=/dev/26\n\
    [slot.data.27]\ndevice=/dev/27\n[slot.data.28]\ndevice=/dev/28\n[slot.data.29]\ndevice=/dev/29\n\
    [slot.data.30]\ndevice=/dev/30\n[slot.data.31]\ndevice=/dev/31\n[slot.data.32]\ndevice=/dev/32\n\
    [slot.data.33]\ndevice=/dev/33\n[slot.data.34]\ndevice=/dev/34\n[slot.data.35]\ndevice=/dev/35\n\
    [slot.data.36]\ndevice=/dev/36\n[slot.data.37]\ndevice=/dev/37\n[slot.data.38]\ndevice=/dev/38\n\
    [slot.data.39]\ndevice=/dev/39\n[slot.data.40]\ndevice=/dev/40\n[slot.data.41]\ndevice=/dev/41\n\
    [slot.data.42]\ndevice=/dev/42\n[slot.data.43]\ndevice=/dev/43\n[slot.data.44]\ndevice=/dev/44\n\
    [slot.data.45]\ndevice=/dev/45\n[slot.data.46]\ndevice=/dev/46\n[slot.data.47]\ndevice=/dev/47\n\
    [slot.data.48]\ndevice=/dev/48\n[slot.data.49]\ndevice=/dev/49\n[slot.data.50]\ndevice=/dev/50\n\
    [slot.data.51]\ndevice=/dev/51\n[slot.data.52]\ndevice=/dev/52\n[slot.data.53]\ndevice=/dev/53\n\
    [slot.data.54]\ndevice=/dev/54\n[slot.data.55]\ndevice=/dev/55\n[slot.data.56]\ndevice=/dev/56\n\
    [slot.data.57]\ndevice=/dev/57\n[slot.data.58]\ndevice=/dev/58\n[slot.data.59]\ndevice=/dev/59\n\
    [slot.data.60]\ndevice=/dev/60\n[slot.data.61]\ndevice=/dev/61\n[slot.data.62]\ndevice=/dev/62\n";

// What follows it in a file, how many slots with boot names the system has then, and why it is refused
// where it is.
static ROWS: [(&str, usize, &str); 17] = [
    ("", 1, ""),
    ("[slot.rootfs.1]\ndevice=/dev/b\nbootname=B\n", 2, ""),
    (
        "[slot.rootfs.1]\nbootname=B\n",
        0,
        "[slot.rootfs.1] device missing",
    ),
    ("[system]\nkey=1\n[other]\n", 0, "[system] key unknown"),
    (
        "[other]\n[slot.rootfs.1]\nkey=1\ndevice=/dev/b\n",
        0,
        "[other] unknown",
    ),
    ("[polling]\nkey=1\n", 0, "[polling] left out"),
    (
        "[slot.rootfs.1]\ndevice=dev/b\n",
        0,
        "[slot.rootfs.1] device bad value",
    ),
    (
        "[slot.rootfs.1]\ndevice=/dev/b\ntype=ext5\n",
        0,
        "[slot.rootfs.1] type bad value",
    ),
    (
        "[slot.rootfs]\ndevice=/dev/b\n",
        0,
        "bad slot name [slot.rootfs]",
    ),
    (
        "[slot.rootfs.1]\ndevice=/dev/a\nbootname=A\n",
        0,
        "rootfs.0 and rootfs.1 share a device",
    ),
    (
        "[slot.rootfs.1]\ndevice=/dev/b\nbootname=A\n",
        0,
        "rootfs.0 and rootfs.1 share a bootname",
    ),
    (
        "[slot.rootfs.1]\ndevice=/dev/b\nparent=x\n",
        0,
        "rootfs.1 has no such parent",
    ),
    (
        "[slot.rootfs.1]\ndevice=/dev/b\nparent=rootfs.1\n",
        0,
        "parents of rootfs.1 do not end",
    ),
    (
        "[slot.rootfs.1]\ndevice=/dev/b\nparent=rootfs.2\n[slot.rootfs.2]\ndevice=/dev/c\nparent=rootfs.1\n",
        0,
        "parents of rootfs.1 do not end",
    ),
    (
        "[slot.rootfs.1]\ndevice=/status\nbootname=B\nparent=rootfs.0\n",
        0,
        "rootfs.1 has parent and bootname",
    ),
    (
        "[slot.rootfs.1]\ndevice=/status\n",
        0,
        "device of rootfs.1 is in use by rauc",
    ),
    (
        "[slot.rootfs.1]\ndevice=/mnt/rauc/b\n",
        0,
        "device of rootfs.1 is in use by rauc",
    ),
];

// Whether the system has so many boot names, which are A and B.
fn has_names(alloc: Global, system: &System, count: usize) -> bool {
    match system.boot_names(alloc) {
        Ok(names) => match names.as_slice() {
            [first] => count == 1 && first.as_str() == "A",
            [first, second] => count == 2 && first.as_str() == "A" && second.as_str() == "B",
            _ => false,
        },
        Err(_) => false,
    }
}

fn is_system(alloc: Global, system: &System, count: usize) -> bool {
    let second = if count == 2 { Some(1) } else { None };
    let slots = system.slot_named("rootfs.1") == second && system.slot_named("rootfs.2").is_none();
    slots && system.compatible.as_str() == "Test" && has_names(alloc, system, count)
}

fn is_cause(alloc: Global, why: &ConfRefusal, cause: &str) -> bool {
    match conf_cause(alloc, why) {
        Ok(text) => text.as_str() == cause,
        Err(_) => false,
    }
}

fn is_answer(alloc: Global, file: &KeyFile, count: usize, cause: &str) -> bool {
    match read_system(alloc, file) {
        Ok(system) => is_system(alloc, &system, count),
        Err(Lack::Refused(why)) => is_cause(alloc, &why, cause),
        Err(Lack::NoMemory) => false,
    }
}

fn is_read(alloc: Global, text: &str, count: usize, cause: &str) -> bool {
    match read(alloc, text.as_bytes()) {
        Ok(file) => is_answer(alloc, &file, count, cause),
        Err(_) => false,
    }
}

// Whether that is the answer to the system with these two texts behind it.
fn is_right(alloc: Global, texts: [&str; 2], count: usize, cause: &str) -> bool {
    let [rest, more] = texts;
    match format!(in alloc; "{SYSTEM}{rest}{more}") {
        Ok(text) => is_read(alloc, text.as_str(), count, cause),
        Err(_) => false,
    }
}

#[test]
fn reads_and_refuses(rt: HostRuntime) -> Result<(), Fail> {
    let alloc = rt.alloc();
    let one_more = "[slot.data.63]\ndevice=/dev/63\n";
    assert!(rt; is_right(alloc, [SLOTS, ""], 1, ""));
    assert!(rt; is_right(alloc, [SLOTS, one_more], 0, "too many slots: 65"));
    for (rest, count, cause) in ROWS.iter() {
        assert!(rt; is_right(alloc, [rest, ""], *count, cause), "{rest}");
    }
    Ok(())
}

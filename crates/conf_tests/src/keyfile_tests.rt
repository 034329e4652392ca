use keyfile::{KeyFault, KeyFile, fits, items, read};
use std::alloc::Global;
use std::test::Fail;
use updater_text::Lack;

// A configuration as a board has it.
const SYSTEM: &[u8; 428] = b"[system]
compatible=Acme Gateway
bootloader=uboot
data-directory=/data/rauc
bundle-formats=-plain

[keyring]
path=/etc/rauc/keyring.pem

[handlers]
post-install=/usr/lib/rauc/post

[slot.rootfs.0]
device=/dev/mmcblk0p2
type=ext4
bootname=A

[slot.appfs.0]
device=/dev/mmcblk0p4
type=ext4
parent=rootfs.0

[slot.rootfs.1]
device=/dev/mmcblk0p3
type=ext4
bootname=B

[slot.appfs.1]
device=/dev/mmcblk0p5
type=ext4
parent=rootfs.1
";

// A manifest as Debian's `rauc bundle` writes it: lists end in a semicolon, tabs are raw, and spaces
// at the front of a value are escaped.
const MANIFEST: &[u8; 225] = b"[update]
compatible=Acme Gateway
version=2024.05
description=\\s\\stwo\tslots

[bundle]
format=verity

[hooks]
filename=hook

[image.rootfs]
size=3
filename=rootfs.ext4
hooks=pre-install;post-install;
adaptive=block-hash-index;
";

// How it is written again: the tab is escaped.
const WRITTEN: &[u8; 226] = b"[update]
compatible=Acme Gateway
version=2024.05
description=\\s\\stwo\\tslots

[bundle]
format=verity

[hooks]
filename=hook

[image.rootfs]
size=3
filename=rootfs.ext4
hooks=pre-install;post-install;
adaptive=block-hash-index;
";

// The worked example of the forms.
const FORMS: &[u8; 41] = b" [a]\r\n x = 1\n[b]\nk=\\s\\\\ z\n# c\n[a]\nx=2\ny=\n";

// What a text is read as: how many groups, some of its entries by the numbers and the texts of group
// and key, a place at which no key is, and the text that it is written as.
struct Sample {
    text: &'static [u8],
    groups: usize,
    entries: &'static [(usize, usize, &'static str, &'static str, &'static str)],
    past: (usize, usize),
    written: &'static [u8],
}

static SAMPLES: [Sample; 3] = [
    Sample {
        text: FORMS,
        groups: 2,
        entries: &[
            (0, 0, "a", "x", "2"),
            (0, 1, "a", "y", ""),
            (1, 0, "b", "k", " \\ z"),
        ],
        past: (1, 1),
        written: b"[a]\nx=2\ny=\n\n[b]\nk=\\s\\\\ z\n",
    },
    Sample {
        text: SYSTEM,
        groups: 7,
        entries: &[(6, 2, "slot.appfs.1", "parent", "rootfs.1")],
        past: (6, 3),
        written: SYSTEM,
    },
    Sample {
        text: MANIFEST,
        groups: 4,
        entries: &[
            (0, 2, "update", "description", "  two\tslots"),
            (3, 2, "image.rootfs", "hooks", "pre-install;post-install;"),
        ],
        past: (3, 4),
        written: WRITTEN,
    },
];

fn has_entry(file: &KeyFile, at: (usize, usize), name: &str, key: &str, value: &str) -> bool {
    let (group, place) = at;
    let there = file.key(group, place) == Some(key) && file.value(group, place) == Some(value);
    there && file.group(group) == Some(name) && file.get(name, key) == Some(value)
}

fn has_entries(file: &KeyFile, sample: &Sample) -> bool {
    let (group, place) = sample.past;
    let mut right = file.groups() == sample.groups
        && file.group(sample.groups).is_none()
        && file.key(group, place).is_none();
    for (group, place, name, key, value) in sample.entries.iter() {
        right = right && has_entry(file, (*group, *place), name, key, value);
    }
    right
}

fn is_written(file: &KeyFile, text: &[u8]) -> bool {
    match file.write() {
        Ok(written) => written.as_slice() == text,
        Err(_) => false,
    }
}

fn is_read(alloc: Global, sample: &Sample) -> bool {
    match read(alloc, sample.text) {
        Ok(file) => has_entries(&file, sample) && is_written(&file, sample.written),
        Err(_) => false,
    }
}

// The list of the hooks in the manifest.
fn lists_hooks(alloc: Global) -> bool {
    match items(alloc, "pre-install;post-install;") {
        Ok(hooks) => match hooks.as_slice() {
            [first, second] => first.as_str() == "pre-install" && second.as_str() == "post-install",
            _ => false,
        },
        Err(_) => false,
    }
}

static PUTS: [(&str, &str, &str); 4] = [
    ("s", "k", ""),
    ("t", "k", "b"),
    ("s", "l", ""),
    ("s", "k", " a\n"),
];

fn put_all(file: &mut KeyFile) -> bool {
    for (group, key, value) in PUTS.iter() {
        if !fits(group, key, value) || file.put(group, key, value).is_err() {
            return false;
        }
    }
    true
}

fn puts(alloc: Global) -> bool {
    match KeyFile::new(alloc) {
        Ok(mut file) => {
            put_all(&mut file) && is_written(&file, b"[s]\nk=\\sa\\n\nl=\n\n[t]\nk=b\n")
        }
        Err(_) => false,
    }
}

#[test]
fn reads_and_writes(rt: HostRuntime) -> Result<(), Fail> {
    let alloc = rt.alloc();
    assert!(rt; !fits("a]", "k", "") && !fits("a", "k k", "") && !fits("a", "k", "\x01"));
    assert!(rt; lists_hooks(alloc));
    assert!(rt; puts(alloc));
    for (row, sample) in SAMPLES.iter().enumerate() {
        assert!(rt; is_read(alloc, sample), "row {row} of the samples");
    }
    Ok(())
}

// Texts, and the fault that each is refused with.
static TEXTS: [(&[u8], Option<KeyFault>); 14] = [
    (b"x=1", Some(KeyFault::KeyBeforeGroup { number: 1 })),
    (b"[a]\n=5\n", Some(KeyFault::BadLine { number: 2 })),
    (b"[a]\nk=\\q", Some(KeyFault::BadEscape { number: 2 })),
    (b"[a]\nk=1\\", Some(KeyFault::BadEscape { number: 2 })),
    (b"x=\\q\n", Some(KeyFault::KeyBeforeGroup { number: 1 })),
    (b"\n \t\n[a]b=1", Some(KeyFault::BadLine { number: 3 })),
    (b"[a]\nk=1\r", Some(KeyFault::BadLine { number: 2 })),
    (b"[a]\nk=\x01\n", Some(KeyFault::BadLine { number: 2 })),
    (b"[]\n", Some(KeyFault::BadLine { number: 1 })),
    (b"\xff", Some(KeyFault::NotUtf8 { at: 0 })),
    (b"x\n\xc3\xa4\xc3", Some(KeyFault::NotUtf8 { at: 4 })),
    (b"# \xe2\x82\xac\x80", Some(KeyFault::NotUtf8 { at: 5 })),
    (b"", None),
    (b" # \x01\n[a=b] \t\n\tk.1 =\t\\n\\t\\r\\s\x7f ", None),
];

static MESSAGES: [(KeyFault, &str); 5] = [
    (
        KeyFault::TooLong { length: 1_048_577 },
        "1048577 bytes are too long",
    ),
    (KeyFault::NotUtf8 { at: 7 }, "byte 7 is not UTF-8"),
    (KeyFault::BadLine { number: 3 }, "line 3 is bad"),
    (
        KeyFault::KeyBeforeGroup { number: 1 },
        "line 1 stands before a group",
    ),
    (
        KeyFault::BadEscape { number: u64::MAX },
        "line 18446744073709551615 has a bad escape",
    ),
];

// Whether a text is read, or refused with this fault.
fn has_fault(alloc: Global, text: &[u8], fault: Option<KeyFault>) -> bool {
    match read(alloc, text) {
        Ok(_) => fault.is_none(),
        Err(Lack::Refused(why)) => fault == Some(why),
        Err(Lack::NoMemory) => false,
    }
}

// The worked example, with a byte that is not UTF-8 at each place in turn.
fn refuses_at_each_place(alloc: Global) -> bool {
    let mut text = *b"\xff [a]\r\n x = 1\n[b]\nk=\\s\\\\ z\n# c\n[a]\nx=2\ny=\n";
    let mut right = true;
    for at in 0..text.len() {
        right = right && has_fault(alloc, &text, Some(KeyFault::NotUtf8 { at: at as u64 }));
        if at + 1 < text.len() {
            text.swap(at, at + 1);
        }
    }
    right
}

// Whether the text is read without its last byte, and not with another one there.
fn is_at_the_limit(alloc: Global, text: &mut [u8]) -> bool {
    let Some((last, front)) = text.split_last_mut() else {
        return false;
    };
    *last = 0xff;
    has_fault(alloc, front, None)
        && has_fault(alloc, text, Some(KeyFault::TooLong { length: 1_048_577 }))
}

fn keeps_the_limit(alloc: Global) -> bool {
    match vec![in alloc; b'#'; 1_048_577] {
        Ok(mut text) => is_at_the_limit(alloc, text.as_mut_slice()),
        Err(_) => false,
    }
}

fn has_message(alloc: Global, fault: KeyFault, message: &str) -> bool {
    match format!(in alloc; "{fault}") {
        Ok(text) => text.as_str() == message,
        Err(_) => false,
    }
}

#[test]
fn refuses(rt: HostRuntime) -> Result<(), Fail> {
    let alloc = rt.alloc();
    assert!(rt; refuses_at_each_place(alloc));
    assert!(rt; keeps_the_limit(alloc));
    for (row, (text, fault)) in TEXTS.iter().enumerate() {
        assert!(rt; has_fault(alloc, text, *fault), "row {row} of the texts");
    }
    for (fault, message) in MESSAGES.iter() {
        assert!(rt; has_message(alloc, *fault, message), "{message}");
    }
    Ok(())
}

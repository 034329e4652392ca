use crate::books::{book_in, has_text, names};
use keyfile::KeyFault;
use slot_status::read_book;
use std::alloc::Global;
use std::test::Fail;
use updater_text::Lack;

const FULL: &str = "[slot.rootfs.0]
bundle.compatible=Test
bundle.version=2024.05-1
bundle.description=\\s\\sAll regions,\\nand a tab:\\t.
bundle.build=
status=update
sha256=ba7816bf8f01cfea414140de5dae2223b00361a396177a9cb410ff61f20015ad
size=18446744073709551615
installed.timestamp=2024-05-01T12:00:00Z
installed.count=4294967295
activated.timestamp=2024-05-01T12:00:01Z
activated.count=12

[slot.rootfs.1]
status=ok
size=0
";

// What stands in a status file of two slots, and what is written in its place.
static FILES: [(&str, &str); 6] = [
    (FULL, FULL),
    ("# nothing\n[slot.rootfs.0]\n[slot.rootfs.1]\n", ""),
    (
        "[slot.rootfs.1]\nstatus=ok\n[x]\n[slot.rootfs.0]\nsize=1\n[slot.rootfs.7]\nsize=2\n",
        "[slot.rootfs.0]\nsize=1\n\n[slot.rootfs.1]\nstatus=ok\n",
    ),
    ("[slot.rootfs]\nsize=1\n[rootfs.0]\nsize=1\n", ""),
    ("[slot.rootfs.00]\nsize=1\n[slot.ROOTFS.0]\nsize=1\n", ""),
    ("[slot.rootfs.0]\r\nsize=1\r\n", "[slot.rootfs.0]\nsize=1\n"),
];

// What stands in the group of a slot, and what is written in its place.
static KEYS: [(&str, &str); 28] = [
    (
        "activated.count=1\nx=x\nstatus=\nbundle.compatible=T",
        "bundle.compatible=T\nstatus=\nactivated.count=1",
    ),
    ("bundle.version=1\nbundle.description=d\nbundle.build=b", ""),
    ("bundle.compatible=", "bundle.compatible="),
    ("Status=ok", ""),
    ("status=update\nstatus=ok", "status=ok"),
    (
        "status=ok\ninstalled.count=x\nsize=y\nsha256=z",
        "status=ok",
    ),
    ("sha256=", ""),
    ("sha256=ba78", ""),
    (
        "sha256=ga7816bf8f01cfea414140de5dae2223b00361a396177a9cb410ff61f20015ad",
        "",
    ),
    (
        "sha256=BA7816BF8F01CFEA414140DE5DAE2223B00361A396177A9CB410FF61F20015AD",
        "sha256=ba7816bf8f01cfea414140de5dae2223b00361a396177a9cb410ff61f20015ad",
    ),
    ("size=", ""),
    ("size=3K", ""),
    ("size=-1", ""),
    ("size=18446744073709551616", ""),
    ("size=0000000000000000000001", ""),
    ("size=007", "size=7"),
    ("installed.timestamp=then", "installed.timestamp=then"),
    ("activated.timestamp=", "activated.timestamp="),
    ("installed.count=0", ""),
    ("installed.count=", ""),
    ("installed.count=one", ""),
    ("installed.count=4294967296", ""),
    ("installed.count=4294967295", "installed.count=4294967295"),
    ("activated.count=0", ""),
    ("activated.count=1.5", ""),
    ("activated.count=4294967296", ""),
    ("activated.count=0007", "activated.count=7"),
    ("bundle.hash=1", ""),
];

fn is_rewritten(alloc: Global, given: &[u8], wanted: &str) -> bool {
    match book_in(alloc, given) {
        Some(book) => has_text(alloc, &book, wanted),
        None => false,
    }
}

fn is_kept(alloc: Global, given: &str, wanted: &str) -> Option<bool> {
    let given = format!(in alloc; "[slot.rootfs.1]\n{given}\n").ok()?;
    if wanted.is_empty() {
        return Some(is_rewritten(alloc, given.as_bytes(), ""));
    }
    let wanted = format!(in alloc; "[slot.rootfs.1]\n{wanted}\n").ok()?;
    Some(is_rewritten(alloc, given.as_bytes(), wanted.as_str()))
}

#[test]
fn reads_and_writes_groups(rt: HostRuntime) -> Result<(), Fail> {
    let alloc = rt.alloc();
    for (given, wanted) in FILES {
        assert!(rt; is_rewritten(alloc, given.as_bytes(), wanted), "{given}");
    }
    Ok(())
}

#[test]
fn reads_and_writes_keys(rt: HostRuntime) -> Result<(), Fail> {
    let alloc = rt.alloc();
    for (given, wanted) in KEYS {
        assert!(rt; is_kept(alloc, given, wanted) == Some(true), "{given}");
    }
    Ok(())
}

// The keys of texts, each with what makes it count.
static TEXTS: [(&str, &str); 7] = [
    ("", "bundle.compatible"),
    ("bundle.compatible=T\n", "bundle.version"),
    ("bundle.compatible=T\n", "bundle.description"),
    ("bundle.compatible=T\n", "bundle.build"),
    ("", "status"),
    ("", "installed.timestamp"),
    ("", "activated.timestamp"),
];

// Whether a text of 1,024 bytes is kept, and one of 1,025 is not.
fn is_limited(alloc: Global, before: &str, key: &str) -> Option<bool> {
    let head = format!(in alloc; "[slot.rootfs.0]\n{before}").ok()?;
    let short = format!(in alloc; "{head}{key}={:x>1024}\n", "x").ok()?;
    let long = format!(in alloc; "{head}{key}={:x>1025}\n", "x").ok()?;
    let left = if before.is_empty() { "" } else { head.as_str() };
    let kept = is_rewritten(alloc, short.as_bytes(), short.as_str());
    Some(kept && is_rewritten(alloc, long.as_bytes(), left))
}

#[test]
fn keeps_texts_of_1024_bytes(rt: HostRuntime) -> Result<(), Fail> {
    let alloc = rt.alloc();
    for (before, key) in TEXTS {
        assert!(rt; is_limited(alloc, before, key) == Some(true), "{key}");
    }
    Ok(())
}

fn is_fault(alloc: Global, text: &[u8], wanted: KeyFault) -> bool {
    let Ok(names) = names(alloc) else {
        return false;
    };
    match read_book(alloc, names.as_slice(), text) {
        Err(Lack::Refused(fault)) => fault == wanted,
        _ => false,
    }
}

#[test]
fn refuses_what_is_no_key_file(rt: HostRuntime) -> Result<(), Fail> {
    let alloc = rt.alloc();
    let bad = is_fault(alloc, b"[\n", KeyFault::BadLine { number: 1 });
    let early = is_fault(
        alloc,
        b"status=ok\n",
        KeyFault::KeyBeforeGroup { number: 1 },
    );
    let escape = is_fault(
        alloc,
        b"[x]\n\nstatus=\\q\n",
        KeyFault::BadEscape { number: 3 },
    );
    let other = is_fault(alloc, b"\xff", KeyFault::NotUtf8 { at: 0 });
    assert!(rt; bad && early && escape && other);
    Ok(())
}

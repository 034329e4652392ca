ghost use Rattle.std.specs.Prelude.{◌≡◌, length};

use crate::books::{book_in, has_text, is_answer, is_cause};
use keyfile::read;
use manifest::{Manifest, read_manifest};
use slot_status::StatusBook;
use std::alloc::Global;
use std::test::Fail;

const MANIFEST: &str = "[update]
compatible=Test
version=2

[image.rootfs]
filename=r.img
size=3
sha256=ba7816bf8f01cfea414140de5dae2223b00361a396177a9cb410ff61f20015ad
";

const INSTALLED: &str = "[slot.rootfs.1]
bundle.compatible=Test
bundle.version=2
status=ok
sha256=ba7816bf8f01cfea414140de5dae2223b00361a396177a9cb410ff61f20015ad
size=3
installed.timestamp=2024-05-01T12:00:00Z
installed.count=1
activated.timestamp=2024-05-01T12:00:00Z
activated.count=1
";

const ACTIVATED_AGAIN: &str = "[slot.rootfs.1]
bundle.compatible=Test
bundle.version=2
status=ok
sha256=ba7816bf8f01cfea414140de5dae2223b00361a396177a9cb410ff61f20015ad
size=3
installed.timestamp=2024-05-01T12:00:00Z
installed.count=1
activated.timestamp=2024-05-01T12:00:01Z
activated.count=2
";

// A slot that was installed from another bundle.
const BEFORE: &str = "[slot.rootfs.0]
bundle.compatible=Old
bundle.build=7
status=ok
sha256=0000000000000000000000000000000000000000000000000000000000000000
size=9
installed.timestamp=then
installed.count=4
activated.timestamp=then
activated.count=5
";

// The same with an update that a hook made.
const BY_A_HOOK: &str = "[slot.rootfs.0]
bundle.compatible=Test
bundle.version=2
status=ok
installed.timestamp=2024-05-01T12:00:00Z
installed.count=5
activated.timestamp=then
activated.count=5
";

fn manifest_of(alloc: Global) -> Option<Manifest> {
    match read(alloc, MANIFEST.as_bytes()) {
        Ok(file) => read_manifest(alloc, &file).ok(),
        Err(_) => None,
    }
}

fn installs(alloc: Global, manifest: &Manifest) -> Option<bool> {
    let image = manifest.images.as_slice().first()?;
    let mut book = StatusBook::empty(alloc, 2).ok()?;
    let begun = book.begin(1).is_ok() && has_text(alloc, &book, "[slot.rootfs.1]\nstatus=update\n");
    let finished = book.finish(1, &manifest.bundle, image.file.as_ref(), 1_714_564_800);
    let activated = book.activate(1, 1_714_564_800).is_ok();
    let written = has_text(alloc, &book, INSTALLED);
    let again = book.activate(1, 1_714_564_801).is_ok() && has_text(alloc, &book, ACTIVATED_AGAIN);
    Some(begun && finished.is_ok() && activated && written && again)
}

fn installs_by_a_hook(alloc: Global, manifest: &Manifest) -> Option<bool> {
    let mut book = book_in(alloc, BEFORE.as_bytes())?;
    let finished = book
        .finish(0, &manifest.bundle, None, 1_714_564_800)
        .is_ok();
    Some(finished && has_text(alloc, &book, BY_A_HOOK))
}

#[test]
fn notes_installs(rt: HostRuntime) -> Result<(), Fail> {
    let alloc = rt.alloc();
    let right = match manifest_of(alloc) {
        Some(manifest) => installs(alloc, &manifest) == Some(true)
            && installs_by_a_hook(alloc, &manifest) == Some(true),
        None => false,
    };
    assert!(rt; right);
    Ok(())
}

// Seconds since 1970, the time that is written, and why none is.
static TIMES: [(i64, &str, &str); 17] = [
    (i64::MIN, "", "clock out of range: -9223372036854775808"),
    (-1, "", "clock out of range: -1"),
    (0, "1970-01-01T00:00:00Z", ""),
    (86_399, "1970-01-01T23:59:59Z", ""),
    (68_169_600, "1972-02-29T00:00:00Z", ""),
    (68_255_999, "1972-02-29T23:59:59Z", ""),
    (951_782_400, "2000-02-29T00:00:00Z", ""),
    (951_868_800, "2000-03-01T00:00:00Z", ""),
    (978_307_199, "2000-12-31T23:59:59Z", ""),
    (1_078_012_799, "2004-02-28T23:59:59Z", ""),
    (1_709_164_800, "2024-02-29T00:00:00Z", ""),
    (1_714_564_800, "2024-05-01T12:00:00Z", ""),
    (4_107_542_399, "2100-02-28T23:59:59Z", ""),
    (4_107_542_400, "2100-03-01T00:00:00Z", ""),
    (253_402_300_799, "9999-12-31T23:59:59Z", ""),
    (253_402_300_800, "", "clock out of range: 253402300800"),
    (i64::MAX, "", "clock out of range: 9223372036854775807"),
];

fn is_ready(alloc: Global, book: &StatusBook, now: i64, cause: &str) -> bool
    requires { length book.now ≡ 2 }
{
    match book.ready(0, now) {
        Ok(()) => cause.is_empty(),
        Err(refusal) => is_cause(alloc, &refusal, cause),
    }
}

fn is_time(alloc: Global, now: i64, time: &str, cause: &str) -> Option<bool> {
    let mut book = StatusBook::empty(alloc, 2).ok()?;
    let ready = is_ready(alloc, &book, now, cause);
    let answer = is_answer(alloc, book.activate(0, now), cause);
    let right = match &book.slot_record(0).activated_time {
        Some(text) => text.as_str() == time,
        None => time.is_empty(),
    };
    Some(ready && answer && right)
}

#[test]
fn writes_times(rt: HostRuntime) -> Result<(), Fail> {
    let alloc = rt.alloc();
    for (now, time, cause) in TIMES {
        assert!(rt; is_time(alloc, now, time, cause) == Some(true), "{now}");
    }
    Ok(())
}

// A record, and why it is not ready, not installed and not activated at a time.
static ENDS: [(&str, i64, [&str; 3]); 5] = [
    (
        "installed.count=4294967294\nactivated.count=4294967294\n",
        0,
        ["", "", ""],
    ),
    (
        "installed.count=4294967295\n",
        0,
        [
            "count of rootfs.0 is at its end",
            "count of rootfs.0 is at its end",
            "",
        ],
    ),
    (
        "activated.count=4294967295\n",
        0,
        [
            "count of rootfs.0 is at its end",
            "",
            "count of rootfs.0 is at its end",
        ],
    ),
    (
        "installed.count=4294967295\nactivated.count=4294967295\n",
        -1,
        [
            "clock out of range: -1",
            "clock out of range: -1",
            "clock out of range: -1",
        ],
    ),
    ("installed.count=4294967296\n", 0, ["", "", ""]),
];

fn ends_so(alloc: Global, record: &str, now: i64, causes: [&str; 3]) -> Option<bool> {
    let text = format!(in alloc; "[slot.rootfs.0]\n{record}").ok()?;
    let mut book = book_in(alloc, text.as_bytes())?;
    let manifest = manifest_of(alloc)?;
    let [ready, finish, activate] = causes;
    let first = is_ready(alloc, &book, now, ready);
    let second = is_answer(alloc, book.activate(0, now), activate);
    let third = is_answer(alloc, book.finish(0, &manifest.bundle, None, now), finish);
    Some(first && second && third)
}

#[test]
fn counts_to_the_end(rt: HostRuntime) -> Result<(), Fail> {
    let alloc = rt.alloc();
    for (record, now, causes) in ENDS {
        assert!(rt;
            ends_so(alloc, record, now, causes) == Some(true),
            "{record}"
        );
    }
    Ok(())
}

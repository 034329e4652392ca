use keyfile::{KeyFile, read};
use manifest::{Image, ImageFile, Manifest, ManifestRefusal, manifest_cause, read_manifest};
use std::alloc::{AllocError, Global};
use std::test::Fail;
use updater_text::Lack;

// A manifest of one image.
const MANIFEST: &str = "[update]
compatible=Test
version=2

[image.rootfs]
filename=r.img
size=3
sha256=ba7816bf8f01cfea414140de5dae2223b00361a396177a9cb410ff61f20015ad
";

const DIGEST: &str = "ba7816bf8f01cfea414140de5dae2223b00361a396177a9cb410ff61f20015ad";

// What follows it in a file, and why that is refused; nothing where it is not.
static REFUSED: [(&str, &str); 40] = [
    ("", ""),
    ("[bundle]\nformat=verity\nverity-salt=0\n", ""),
    ("[meta.acme]\nanything=1\n[meta.]\n", ""),
    ("[update]\ncompatible=\ndescription=a\\nb\nbuild=\n", ""),
    ("[image.rootfs]\nhooks=\nadaptive=\n", ""),
    (
        "[image.rootfs]\nhooks=install;\nadaptive=other;x\n",
        "[hooks] filename missing",
    ),
    ("[image.a]\n", "[image.a] filename missing"),
    ("[image.a]\nfilename=a\n", "[image.a] size missing"),
    (
        "[image.a]\nfilename=a\nsize=1\n",
        "[image.a] sha256 missing",
    ),
    ("[image.a]\nhooks=install\n", "[hooks] filename missing"),
    ("[image.a]\nhooks=install\n[hooks]\nfilename=h\n", ""),
    (
        "[image.a]\nhooks=install\nadaptive=x\n",
        "[image.a] filename missing",
    ),
    (
        "[image.a]\nhooks=post-install\n",
        "[image.a] filename missing",
    ),
    (
        "[image.a]\nhooks=install;nothing\n",
        "[image.a] filename missing",
    ),
    ("[hooks]\nhooks=install-check\n", "[hooks] filename missing"),
    (
        "[hooks]\nhooks=install-check;install\n",
        "[hooks] hooks bad value",
    ),
    ("[hooks]\nhooks=;install-check\n", "[hooks] hooks bad value"),
    ("[hooks]\nfilename=h\nhooks=install-check;\n", ""),
    (
        "[other]\n[image.rootfs]\nkey=1\n",
        "[image.rootfs] key unknown",
    ),
    ("[other]\nkey=1\n", "[other] unknown"),
    ("[update]\nkey=1\n", "[update] key unknown"),
    ("[hooks]\nkey=1\n", "[hooks] key unknown"),
    ("[image.]\n", "[image.] unknown"),
    ("[image.a b]\n", "[image.a b] unknown"),
    ("[image.a b.c]\n", "[image.a b.c] unknown"),
    ("[image]\n", "[image] unknown"),
    ("[handler]\nfilename=h\n", "[handler] left out"),
    ("[image.a.b]\n", "[image.a.b] left out"),
    (
        "[image.rootfs]\ntype=ext4\nkey=1\n",
        "[image.rootfs] key unknown",
    ),
    (
        "[image.rootfs]\ntype=ext4\n",
        "[image.rootfs] type left out",
    ),
    (
        "[image.rootfs]\nconvert=x\nsize=3K\n",
        "[image.rootfs] convert left out",
    ),
    ("[image.rootfs]\nsize=3K\n", "[image.rootfs] size bad value"),
    (
        "[image.rootfs]\nsize=18446744073709551616\n",
        "[image.rootfs] size bad value",
    ),
    (
        "[image.rootfs]\nhooks=install-check\n",
        "[image.rootfs] hooks bad value",
    ),
    (
        "[image.rootfs]\nfilename=../x\nsha256=0\n",
        "bad file name [image.rootfs]",
    ),
    (
        "[image.rootfs]\nfilename=..\n",
        "bad file name [image.rootfs]",
    ),
    (
        "[image.rootfs]\nfilename=\n",
        "bad file name [image.rootfs]",
    ),
    ("[hooks]\nfilename=a/b\n", "bad file name [hooks]"),
    ("[image.rootfs]\nsha256=ba78\n", "bad digest [image.rootfs]"),
    ("[image.rootfs]\nsha256=\n", "bad digest [image.rootfs]"),
];

fn is_cause(alloc: Global, why: &ManifestRefusal, cause: &str) -> bool {
    match manifest_cause(alloc, why) {
        Ok(text) => text.as_str() == cause,
        Err(_) => false,
    }
}

fn is_answer(alloc: Global, file: &KeyFile, cause: &str) -> bool {
    match read_manifest(alloc, file) {
        Ok(_) => cause.is_empty(),
        Err(Lack::Refused(why)) => is_cause(alloc, &why, cause),
        Err(Lack::NoMemory) => false,
    }
}

fn is_refused(alloc: Global, text: &[u8], cause: &str) -> bool {
    match read(alloc, text) {
        Ok(file) => is_answer(alloc, &file, cause),
        Err(_) => false,
    }
}

// Whether that is the answer to the manifest with this behind it.
fn is_right(alloc: Global, rest: &str, cause: &str) -> bool {
    match format!(in alloc; "{MANIFEST}{rest}") {
        Ok(text) => is_refused(alloc, text.as_bytes(), cause),
        Err(_) => false,
    }
}

// The manifest with so many images behind it, which a hook installs.
fn with_images(alloc: Global, count: u64) -> Result<String, AllocError> {
    let mut text = format!(in alloc; "{MANIFEST}[hooks]\nfilename=h\n")?;
    for number in 0..count {
        let image = format!(in alloc; "[image.a{number}]\nhooks=install\n")?;
        text.push_str(image.as_str())?;
    }
    Ok(text)
}

fn is_many(alloc: Global, count: u64, cause: &str) -> bool {
    match with_images(alloc, count) {
        Ok(text) => is_refused(alloc, text.as_bytes(), cause),
        Err(_) => false,
    }
}

// How many of the fronts of the manifest are manifests.
fn whole_fronts(alloc: Global) -> usize {
    let text = MANIFEST.as_bytes();
    let mut whole: usize = 0;
    for end in 0..=text.len() {
        if is_refused(alloc, &text[..end], "") {
            whole = whole.saturating_add(1);
        }
    }
    whole
}

#[test]
fn refuses_manifests(rt: HostRuntime) -> Result<(), Fail> {
    let alloc = rt.alloc();
    for (rest, cause) in REFUSED.iter() {
        assert!(rt; is_right(alloc, rest, cause), "{rest}");
    }
    assert!(rt;
        is_refused(
            alloc,
            b"[update]\nversion=1\n[other]\n",
            "[update] compatible missing"
        )
    );
    assert!(rt; is_refused(alloc, b"[update]\ncompatible=Test\n", "no images"));
    assert!(rt; is_many(alloc, 63, "") && is_many(alloc, 64, "too many images: 65"));
    // The whole, and the whole without its last line feed.
    assert!(rt; whole_fronts(alloc) == 2);
    Ok(())
}

// The bundles below.
#[derive(Clone, Copy)]
enum Kind {
    Plain,
    Verity,
    Hooked,
}

// An image, as it has to be read: its class, its file's name and length, its hooks in their order, and
// whether it is adaptive.
type Row = (&'static str, Option<(&'static str, u64)>, [bool; 3], bool);

// A bundle that dm-verity protects, as it stands in its signature, with an image written by blocks.
const VERITY: &str = "[update]
compatible=Acme Gateway
version=2024.05-1
description=Gateway, all regions
build=20240501120000

[bundle]
format=verity
verity-hash=931b44c2989432c0fcfcd215ec94384576b973d70530fdc75b6c4c67b0a60297
verity-salt=ea12cb34c699ebbad0ebee8f6aca0049ee991f289011345d9cdb473ba4fdd285
verity-size=4096

[image.rootfs]
sha256=ba7816bf8f01cfea414140de5dae2223b00361a396177a9cb410ff61f20015ad
size=419430400
filename=rootfs.ext4
adaptive=block-hash-index

[image.appfs]
sha256=BA7816BF8F01CFEA414140DE5DAE2223B00361A396177A9CB410FF61F20015AD
size=219430400
filename=appfs.ext4
";

// A bundle whose hooks decide and work, and which says things about itself for others.
const HOOKED: &str = "# made by hand
[update]
compatible=Acme Gateway

[hooks]
filename=hook.sh
hooks=install-check;

[image.rootfs]
filename=rootfs.img
size=16
sha256=ba7816bf8f01cfea414140de5dae2223b00361a396177a9cb410ff61f20015ad
hooks=post-install;pre-install

[image.bootloader]
hooks=install

[image.data]
filename=data.tar.gz
size=007
sha256=ba7816bf8f01cfea414140de5dae2223b00361a396177a9cb410ff61f20015ad
hooks=install
adaptive=none;block-hash-index;

[meta.acme]
ticket=1234
";

// A plain bundle of one image, with words of two vendors.
const PLAIN: &str = "[update]
compatible=Acme Gateway
version=7

[bundle]
format=plain

[hooks]
filename=hook.sh

[image.rootfs]
filename=core-image.squashfs
size=52428800
sha256=ba7816bf8f01cfea414140de5dae2223b00361a396177a9cb410ff61f20015ad
hooks=post-install

[meta.acme]
release-notes=https://example.com/7
channel=stable

[meta.example]
signed-by=someone
";

static PLAIN_IMAGES: [Row; 1] = [(
    "rootfs",
    Some(("core-image.squashfs", 52_428_800)),
    [false, false, true],
    false,
)];

static VERITY_IMAGES: [Row; 2] = [
    (
        "rootfs",
        Some(("rootfs.ext4", 419_430_400)),
        [false, false, false],
        true,
    ),
    (
        "appfs",
        Some(("appfs.ext4", 219_430_400)),
        [false, false, false],
        false,
    ),
];

static HOOKED_IMAGES: [Row; 3] = [
    (
        "rootfs",
        Some(("rootfs.img", 16)),
        [true, false, true],
        false,
    ),
    ("bootloader", None, [false, true, false], false),
    ("data", Some(("data.tar.gz", 7)), [false, true, false], true),
];

fn is_file(alloc: Global, file: &ImageFile, name: &str, size: u64) -> bool {
    match file.digest.hex(alloc) {
        Ok(digest) => file.name.as_str() == name && file.size == size && digest.as_str() == DIGEST,
        Err(_) => false,
    }
}

fn has_file(alloc: Global, image: &Image, row: &Row) -> bool {
    match (&image.file, row.1) {
        (Some(file), Some((name, size))) => is_file(alloc, file, name, size),
        (None, None) => true,
        _ => false,
    }
}

fn is_image(alloc: Global, image: &Image, row: &Row) -> bool {
    let [pre, install, post] = row.2;
    let hooks = image.pre == pre && image.install == install && image.post == post;
    let head = image.class.as_str() == row.0 && image.adaptive == row.3;
    head && hooks && has_file(alloc, image, row)
}

fn has_images(alloc: Global, manifest: &Manifest, rows: &[Row]) -> bool {
    let images = manifest.images.as_slice();
    let mut pairs = images.iter().zip(rows.iter());
    images.len() == rows.len() && pairs.all(|(image, row)| is_image(alloc, image, row))
}

fn is_verity(manifest: &Manifest) -> bool {
    let bundle = &manifest.bundle;
    match (&bundle.version, &bundle.description, &bundle.build) {
        (Some(version), Some(description), Some(build)) => {
            let first = version.as_str() == "2024.05-1" && build.as_str() == "20240501120000";
            first && description.as_str() == "Gateway, all regions" && manifest.hook_file.is_none()
        }
        _ => false,
    }
}

fn is_plain(manifest: &Manifest) -> bool {
    let bundle = &manifest.bundle;
    let quiet = bundle.description.is_none() && bundle.build.is_none();
    match &bundle.version {
        Some(version) => version.as_str() == "7" && quiet && !manifest.install_check,
        None => false,
    }
}

fn is_hooked(manifest: &Manifest) -> bool {
    match &manifest.hook_file {
        Some(file) => file.as_str() == "hook.sh" && manifest.install_check,
        None => false,
    }
}

fn reads(alloc: Global, file: &KeyFile, rows: &[Row], kind: Kind) -> bool {
    match read_manifest(alloc, file) {
        Ok(manifest) => {
            let named = manifest.bundle.compatible.as_str() == "Acme Gateway";
            let right = match kind {
                Kind::Plain => is_plain(&manifest),
                Kind::Verity => is_verity(&manifest),
                Kind::Hooked => is_hooked(&manifest),
            };
            named && right && has_images(alloc, &manifest, rows)
        }
        Err(_) => false,
    }
}

fn is_read(alloc: Global, text: &str, rows: &[Row], kind: Kind) -> bool {
    match read(alloc, text.as_bytes()) {
        Ok(file) => reads(alloc, &file, rows, kind),
        Err(_) => false,
    }
}

#[test]
fn reads_manifests(rt: HostRuntime) -> Result<(), Fail> {
    let alloc = rt.alloc();
    assert!(rt; is_read(alloc, PLAIN, &PLAIN_IMAGES, Kind::Plain));
    assert!(rt; is_read(alloc, VERITY, &VERITY_IMAGES, Kind::Verity));
    assert!(rt; is_read(alloc, HOOKED, &HOOKED_IMAGES, Kind::Hooked));
    Ok(())
}

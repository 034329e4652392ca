use keyfile::{KeyFile, read};
use manifest::{Manifest, read_manifest};
use mark_report::{Form, info_text};
use std::alloc::Global;
use std::test::Fail;

const PLAIN: &str = "[update]
compatible=Test
version=2

[image.rootfs]
filename=r.img
size=3
sha256=ba7816bf8f01cfea414140de5dae2223b00361a396177a9cb410ff61f20015ad
";

const PLAIN_READABLE: &str = "compatible: Test
version: 2
images: 1
image rootfs
  file: r.img
  size: 3
  sha256: ba7816bf8f01cfea414140de5dae2223b00361a396177a9cb410ff61f20015ad
";

const PLAIN_SHELL: &str = "RAUC_MF_COMPATIBLE='Test'
RAUC_MF_VERSION='2'
RAUC_MF_DESCRIPTION=''
RAUC_MF_BUILD=''
RAUC_MF_IMAGES='1'
RAUC_IMAGE_CLASS_1='rootfs'
RAUC_IMAGE_NAME_1='r.img'
RAUC_IMAGE_SIZE_1='3'
RAUC_IMAGE_DIGEST_1='ba7816bf8f01cfea414140de5dae2223b00361a396177a9cb410ff61f20015ad'
";

const HOOKED: &str = "[update]
compatible=It's
description=a\\nb\\tc
build=7
[hooks]
filename=h
[image.rootfs]
hooks=post-install;pre-install
filename=r.img
size=0
sha256=BA7816BF8F01CFEA414140DE5DAE2223B00361A396177A9CB410FF61F20015AD
adaptive=block-hash-index
[image.boot]
hooks=install
";

const HOOKED_READABLE: &str = "compatible: It's
description: a?b?c
build: 7
images: 2
image rootfs
  file: r.img
  size: 0
  sha256: ba7816bf8f01cfea414140de5dae2223b00361a396177a9cb410ff61f20015ad
  hooks: pre-install post-install
  adaptive: block-hash-index
image boot
  hooks: install
";

const HOOKED_SHELL: &str = "RAUC_MF_COMPATIBLE='It'\\''s'
RAUC_MF_VERSION=''
RAUC_MF_DESCRIPTION='a\nb\tc'
RAUC_MF_BUILD='7'
RAUC_MF_IMAGES='2'
RAUC_IMAGE_CLASS_1='rootfs'
RAUC_IMAGE_NAME_1='r.img'
RAUC_IMAGE_SIZE_1='0'
RAUC_IMAGE_DIGEST_1='ba7816bf8f01cfea414140de5dae2223b00361a396177a9cb410ff61f20015ad'
RAUC_IMAGE_CLASS_2='boot'
RAUC_IMAGE_NAME_2=''
RAUC_IMAGE_SIZE_2=''
RAUC_IMAGE_DIGEST_2=''
";

fn has_text(alloc: Global, manifest: &Manifest, form: Form, text: &str) -> bool {
    match info_text(alloc, manifest, form) {
        Ok(told) => told.as_slice() == text.as_bytes(),
        Err(_) => false,
    }
}

fn tells(alloc: Global, file: &KeyFile, readable: &str, shell: &str) -> bool {
    match read_manifest(alloc, file) {
        Ok(manifest) => {
            let first = has_text(alloc, &manifest, Form::Readable, readable);
            first && has_text(alloc, &manifest, Form::Shell, shell)
        }
        Err(_) => false,
    }
}

fn is_told(alloc: Global, text: &str, readable: &str, shell: &str) -> bool {
    match read(alloc, text.as_bytes()) {
        Ok(file) => tells(alloc, &file, readable, shell),
        Err(_) => false,
    }
}

#[test]
fn tells_manifests(rt: HostRuntime) -> Result<(), Fail> {
    let alloc = rt.alloc();
    assert!(rt; is_told(alloc, PLAIN, PLAIN_READABLE, PLAIN_SHELL));
    assert!(rt; is_told(alloc, HOOKED, HOOKED_READABLE, HOOKED_SHELL));
    Ok(())
}

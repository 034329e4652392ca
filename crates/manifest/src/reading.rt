ghost use Rattle.std.specs.Prelude.{◌≡◌, None, IfOk, map};
ghost use Rattle.std.specs.List.{IsDistinct};
ghost use Rattle.std.specs.Str.{bytes_eq};
ghost use Rattle.manifest.specs.Contents.{content};
ghost use Rattle.manifest.specs.Images.{image_groups};
ghost use Rattle.manifest.specs.Reads.{Checks, Reads, manifest_content};
ghost use Rattle.manifest.specs.Refusals as spec;

use crate::bundle::read_bundle_text;
use crate::file_names::bad_name;
use crate::image_groups::{has_install_check, image_groups};
use crate::images::{bad_count, bad_digest, read_images};
use crate::keys::{bad_value, left_out, missing, unknown_key};
use crate::{Manifest, ManifestRefusal};
use keyfile::KeyFile;
use std::alloc::Global;
use updater_text::{Lack, NoMemory, Text, text_if_any};

/// Reads a manifest, as RAUC's chapter Reference describes `manifest.raucm`, or refuses it with the
/// first refusal that holds, in the order of `ManifestRefusal`.
pub fn read_manifest(alloc: Global, file: &KeyFile) -> Result<Manifest, Lack<ManifestRefusal>>
    ensures { Reads (spec.manifest_of file.now) result }
{
    let images = image_groups(alloc, file)?;
    check(alloc, file, images.as_slice())?;
    match read_content(alloc, file, images.as_slice()) {
        Ok(manifest) => Ok(manifest),
        Err(_) => Err(Lack::NoMemory),
    }
}

// Refuses a manifest by the first refusal that holds.
fn check(alloc: Global, file: &KeyFile, images: &[Text]) -> Result<(), Lack<ManifestRefusal>>
    requires { images.now ≡ image_groups file.now }
    ensures { Checks (spec.first_refusal file.now) result }
{
    match first_refusal(alloc, file, images) {
        Ok(None) => Ok(()),
        Ok(Some(why)) => Err(Lack::Refused(why)),
        Err(_) => Err(Lack::NoMemory),
    }
}

fn first_refusal(
    alloc: Global,
    file: &KeyFile,
    images: &[Text],
) -> Result<Option<ManifestRefusal>, NoMemory>
    requires { images.now ≡ image_groups file.now }
    ensures { IfOk result (λ refusal. refusal ≡ spec.first_refusal file.now) }
{
    if let Some(why) = missing(alloc, file, images)? {
        return Ok(Some(why));
    }
    if let Some(why) = unknown_key(alloc, file)? {
        return Ok(Some(why));
    }
    if let Some(why) = left_out(alloc, file)? {
        return Ok(Some(why));
    }
    if let Some(why) = bad_value(alloc, file)? {
        return Ok(Some(why));
    }
    if let Some(why) = bad_name(alloc, file)? {
        return Ok(Some(why));
    }
    if let Some(why) = bad_digest(alloc, file, images)? {
        return Ok(Some(why));
    }
    Ok(bad_count(file, images))
}

// What a manifest says that is not refused.
fn read_content(alloc: Global, file: &KeyFile, images: &[Text]) -> Result<Manifest, NoMemory>
    requires groups { images.now ≡ image_groups file.now }
    requires pass { spec.first_refusal file.now ≡ None }
    requires differ { IsDistinct bytes_eq (map (λ g. g.0) file.now) }
    ensures { IfOk result (λ manifest. manifest_content manifest ≡ content file.now) }
{
    let bundle = read_bundle_text(alloc, file)?;
    let hook_file = text_if_any(alloc, file.get("hooks", "filename"))?;
    let images = read_images(alloc, file, images)?;
    Ok(Manifest {
        bundle,
        hook_file,
        install_check: has_install_check(file),
        images,
    })
}

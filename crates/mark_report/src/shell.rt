ghost use Rattle.std.specs.Prelude.{◌≡◌, ◌++◌, ◌+◌, [], IfOk, OnOk, codes, decimal, unwrap_or};
ghost use Rattle.std.specs.List.{enumerate_from, flat_map};
ghost use Rattle.std.specs.Option.{option_map_or};
ghost use Rattle.hex.specs.Hex.{encode_lower};
ghost use Rattle.manifest.specs.Reads.{bundle_content, image_content, image_contents, manifest_content};
ghost use Rattle.mark_report.specs.Info as spec;
ghost use Rattle.report_lines.specs.Lines.{setting};

use manifest::{BundleText, Image, ImageFile, Manifest};
use report_lines::{decimal, text_or_none, write_numbered, write_setting};
use std::alloc::Global;
use updater_text::{NoMemory, Text};

/// Writes what a manifest says, for a shell.
#[tactic(auto, unfolding(crate::specs::Info::shell))]
pub fn write_shell(alloc: Global, out: &mut Vec<u8>, manifest: &Manifest) -> Result<(), NoMemory>
    ensures { OnOk result (out.new.items ≡ out.old.items ++ spec.shell (manifest_content manifest.now)) }
{
    write_bundle(alloc, out, &manifest.bundle)?;
    write_count(alloc, out, manifest.images.len() as u64)?;
    write_images(alloc, out, manifest.images.as_slice())
}

#[tactic(auto, unfolding(crate::specs::Info::bundle_settings))]
fn write_bundle(alloc: Global, out: &mut Vec<u8>, bundle: &BundleText) -> Result<(), NoMemory>
    ensures { OnOk result (out.new.items ≡ out.old.items ++ spec.bundle_settings (bundle_content bundle.now)) }
{
    write_setting(alloc, out, "RAUC_MF_COMPATIBLE", bundle.compatible.as_str())?;
    write_setting(alloc, out, "RAUC_MF_VERSION", text_or_none(&bundle.version))?;
    write_setting(
        alloc,
        out,
        "RAUC_MF_DESCRIPTION",
        text_or_none(&bundle.description),
    )?;
    write_setting(alloc, out, "RAUC_MF_BUILD", text_or_none(&bundle.build))?;
    Ok(())
}

fn write_count(alloc: Global, out: &mut Vec<u8>, count: u64) -> Result<(), NoMemory>
    ensures { OnOk result (out.new.items ≡ out.old.items ++ setting (codes "RAUC_MF_IMAGES") (decimal count)) }
{
    let count = decimal(alloc, count)?;
    write_setting(alloc, out, "RAUC_MF_IMAGES", count.as_str())
}

fn write_images(alloc: Global, out: &mut Vec<u8>, images: &[Image]) -> Result<(), NoMemory>
    ensures { OnOk result (out.new.items ≡ out.old.items ++ flat_map spec.image_settings (enumerate_from 1 (image_contents images.now))) }
{
    let mut number = 1;
    for image in images {
        write_image(alloc, out, number, image)?;
        number = number + 1;
    }
    Ok(())
}

#[tactic(auto, unfolding(crate::specs::Info::image_settings))]
fn write_image(alloc: Global, out: &mut Vec<u8>, number: u64, image: &Image) -> Result<(), NoMemory>
    ensures { OnOk result (out.new.items ≡ out.old.items ++ spec.image_settings (number, image_content image.now)) }
{
    write_numbered(
        alloc,
        out,
        "RAUC_IMAGE_CLASS_",
        number,
        image.class.as_str(),
    )?;
    write_numbered(alloc, out, "RAUC_IMAGE_NAME_", number, name_of(&image.file))?;
    write_file(alloc, out, number, &image.file)
}

// Writes the length and the SHA-256 of an image's file.
#[tactic(auto, unfolding(crate::specs::Info::file_settings))]
fn write_file(
    alloc: Global,
    out: &mut Vec<u8>,
    number: u64,
    file: &Option<ImageFile>,
) -> Result<(), NoMemory>
    ensures { OnOk result (out.new.items ≡ out.old.items ++ spec.file_settings number file.now) }
{
    let size = size_text(alloc, file)?;
    let digest = digest_text(alloc, file)?;
    write_numbered(alloc, out, "RAUC_IMAGE_SIZE_", number, size.as_str())?;
    write_numbered(alloc, out, "RAUC_IMAGE_DIGEST_", number, digest.as_str())
}

fn name_of(file: &Option<ImageFile>) -> &str
    ensures { result.now ≡ option_map_or (λ f. f.name) file.entry.now [] }
{
    match file {
        Some(file) => file.name.as_str(),
        None => "",
    }
}

fn size_text(alloc: Global, file: &Option<ImageFile>) -> Result<Text, NoMemory>
    ensures { IfOk result (λ text. text ≡ option_map_or (λ f. decimal f.size) file.now []) }
{
    match file {
        Some(file) => decimal(alloc, file.size),
        None => Ok(Text::empty(alloc)),
    }
}

fn digest_text(alloc: Global, file: &Option<ImageFile>) -> Result<Text, NoMemory>
    ensures { IfOk result (λ text. text ≡ option_map_or (λ f. encode_lower f.digest.0) file.now []) }
{
    match file {
        Some(file) => file.digest.hex(alloc),
        None => Ok(Text::empty(alloc)),
    }
}

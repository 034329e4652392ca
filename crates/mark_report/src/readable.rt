ghost use Rattle.std.specs.Prelude.{◌≡◌, ◌++◌, [], OnOk};
ghost use Rattle.std.specs.Option.{option_map_or};
ghost use Rattle.std.specs.List.{flat_map};
ghost use Rattle.manifest.specs.Reads.{bundle_content, image_content, image_contents, manifest_content};
ghost use Rattle.mark_report.specs.Info as spec;

use manifest::{BundleText, Image, ImageFile, Manifest};
use report_lines::{write_if, write_line, write_line_if_any, write_number_line};
use std::alloc::{AllocError, Global};
use updater_text::NoMemory;

/// Writes what a manifest says, for a reader.
#[tactic(auto, unfolding(crate::specs::Info::readable))]
pub fn write_readable(alloc: Global, out: &mut Vec<u8>, manifest: &Manifest) -> Result<(), NoMemory>
    ensures { OnOk result (out.new.items ≡ out.old.items ++ spec.readable (manifest_content manifest.now)) }
{
    write_bundle(out, &manifest.bundle)?;
    write_number_line(alloc, out, "images: ", manifest.images.len() as u64)?;
    write_images(alloc, out, manifest.images.as_slice())
}

#[tactic(auto, unfolding(crate::specs::Info::bundle_lines))]
fn write_bundle(out: &mut Vec<u8>, bundle: &BundleText) -> Result<(), AllocError>
    ensures { OnOk result (out.new.items ≡ out.old.items ++ spec.bundle_lines (bundle_content bundle.now)) }
{
    write_line(out, "compatible: ", bundle.compatible.as_str())?;
    write_line_if_any(out, "version: ", &bundle.version)?;
    write_line_if_any(out, "description: ", &bundle.description)?;
    write_line_if_any(out, "build: ", &bundle.build)?;
    Ok(())
}

fn write_images(alloc: Global, out: &mut Vec<u8>, images: &[Image]) -> Result<(), NoMemory>
    ensures { OnOk result (out.new.items ≡ out.old.items ++ flat_map spec.image_lines (image_contents images.now)) }
{
    for image in images {
        write_image(alloc, out, image)?;
    }
    Ok(())
}

#[tactic(auto, unfolding(crate::specs::Info::image_lines))]
fn write_image(alloc: Global, out: &mut Vec<u8>, image: &Image) -> Result<(), NoMemory>
    ensures { OnOk result (out.new.items ≡ out.old.items ++ spec.image_lines (image_content image.now)) }
{
    write_line(out, "image ", image.class.as_str())?;
    write_file_if_any(alloc, out, &image.file)?;
    write_hooks(out, image)?;
    write_if(out, image.adaptive, "  adaptive: block-hash-index\n")?;
    Ok(())
}

fn write_file_if_any(
    alloc: Global,
    out: &mut Vec<u8>,
    file: &Option<ImageFile>,
) -> Result<(), NoMemory>
    ensures { OnOk result (out.new.items ≡ out.old.items ++ option_map_or spec.file_lines file.now []) }
{
    match file {
        Some(file) => write_file(alloc, out, file),
        None => Ok(()),
    }
}

#[tactic(auto, unfolding(crate::specs::Info::file_lines))]
fn write_file(alloc: Global, out: &mut Vec<u8>, file: &ImageFile) -> Result<(), NoMemory>
    ensures { OnOk result (out.new.items ≡ out.old.items ++ spec.file_lines file.now) }
{
    let digest = file.digest.hex(alloc)?;
    write_line(out, "  file: ", file.name.as_str())?;
    write_number_line(alloc, out, "  size: ", file.size)?;
    write_line(out, "  sha256: ", digest.as_str())?;
    Ok(())
}

// Writes the hooks that an image names, if it names one.
#[tactic(auto, unfolding(crate::specs::Info::hook_line))]
fn write_hooks(out: &mut Vec<u8>, image: &Image) -> Result<(), AllocError>
    ensures { OnOk result (out.new.items ≡ out.old.items ++ spec.hook_line (image_content image.now)) }
{
    if image.pre || image.install || image.post {
        out.extend_from_slice(b"  hooks:")?;
        write_if(out, image.pre, " pre-install")?;
        write_if(out, image.install, " install")?;
        write_if(out, image.post, " post-install")?;
        out.push(b'\n')?;
    }
    Ok(())
}

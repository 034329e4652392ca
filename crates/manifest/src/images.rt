ghost use Rattle.std.specs.Prelude.{◌≡◌, None, IfOk, IsTrue, codes, true};
ghost use Rattle.conf_forms.specs.Lists.{or_else};
ghost use Rattle.manifest.specs.Contents.{image_of, images_of};
ghost use Rattle.manifest.specs.Images as image;
ghost use Rattle.manifest.specs.Reads.{image_content, image_contents};
ghost use Rattle.manifest.specs.Refusals as spec;
ghost use Rattle.manifest.specs.Sound.{has_source};

use crate::image_groups::{class_in, digest_in, has_hook, is_adaptive, size_of};
use crate::{Image, ImageFile, ManifestRefusal};
use keyfile::KeyFile;
use std::alloc::Global;
use updater_text::{Digest, Items, NoMemory, Text};

/// The first image of which the digest is none.
#[tactic(auto, unfolding(crate::specs::Refusals::bad_digest))]
pub fn bad_digest(
    alloc: Global,
    file: &KeyFile,
    images: &[Text],
) -> Result<Option<ManifestRefusal>, NoMemory>
    requires { images.now ≡ image.image_groups file.now }
    ensures { IfOk result (λ refusal. refusal ≡ spec.bad_digest file.now) }
{
    for group in images {
        if let Some(why) = undigested(alloc, file, group)? {
            return Ok(Some(why));
        }
    }
    Ok(None)
}

// The image of a group, where its digest is none.
fn undigested(
    alloc: Global,
    file: &KeyFile,
    group: &Text,
) -> Result<Option<ManifestRefusal>, NoMemory>
    ensures { IfOk result (λ refusal. refusal ≡ spec.undigested file.now group.now) }
{
    match file.get(group.as_str(), "sha256") {
        Some(digest) if Digest::read(digest).is_none() => Ok(Some(ManifestRefusal::BadDigest {
            group: group.copy(alloc)?,
        })),
        _ => Ok(None),
    }
}

/// The refusal of no image, or of more than 64.
#[tactic(auto, unfolding(crate::specs::Refusals::no_images, crate::specs::Refusals::too_many_images))]
pub fn bad_count(file: &KeyFile, images: &[Text]) -> Option<ManifestRefusal>
    requires { images.now ≡ image.image_groups file.now }
    ensures { result ≡ or_else (spec.no_images file.now) (spec.too_many_images file.now) }
{
    if images.is_empty() {
        return Some(ManifestRefusal::NoImages);
    }
    if images.len() > 64 {
        return Some(ManifestRefusal::TooManyImages {
            count: images.len() as u64,
        });
    }
    None
}

/// The images of a manifest that is not refused.
pub fn read_images(alloc: Global, file: &KeyFile, images: &[Text]) -> Result<Items<Image>, NoMemory>
    requires groups { images.now ≡ image.image_groups file.now }
    requires pass { spec.first_refusal file.now ≡ None }
    ensures { IfOk result (λ read. image_contents read ≡ images_of file.now) }
{
    let mut read = Items::new(alloc);
    for group in images {
        let image = read_image(alloc, file, group.as_str())?;
        read.push(image)?;
    }
    Ok(read)
}

fn read_image(alloc: Global, file: &KeyFile, group: &str) -> Result<Image, NoMemory>
    requires sourced { IsTrue (has_source (image.file_of file.now group.now) (image.has_hook file.now group.now (codes "install"))) }
    requires is_one { image.is_image_group group.now ≡ true }
    ensures { IfOk result (λ read. image_content read ≡ image_of file.now group.now) }
{
    let class = Text::new(alloc, class_in(group).unwrap_or(""))?;
    let image_file = read_file(alloc, file, group)?;
    Ok(Image {
        class,
        file: image_file,
        pre: has_hook(file, group, "pre-install"),
        install: has_hook(file, group, "install"),
        post: has_hook(file, group, "post-install"),
        adaptive: is_adaptive(file, group),
    })
}

// The file of an image, where its name, size and digest are there.
fn read_file(alloc: Global, file: &KeyFile, group: &str) -> Result<Option<ImageFile>, NoMemory>
    ensures { IfOk result (λ read. read ≡ image.file_of file.now group.now) }
{
    let Some(name) = file.get(group, "filename") else {
        return Ok(None);
    };
    let Some(size) = size_of(file, group) else {
        return Ok(None);
    };
    let Some(digest) = digest_in(file, group) else {
        return Ok(None);
    };
    let name = Text::new(alloc, name)?;
    Ok(Some(ImageFile { name, size, digest }))
}

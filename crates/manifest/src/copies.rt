ghost use Rattle.std.specs.Prelude.{◌≡◌, IfOk};

use crate::{BundleText, Image, ImageFile, Manifest};
use std::alloc::Global;
use updater_text::{Items, NoMemory, Text};

// The same text, where there is one.
fn copy_text(alloc: Global, text: &Option<Text>) -> Result<Option<Text>, NoMemory>
    ensures { IfOk result (λ copy. copy ≡ text.now) }
{
    match text {
        Some(text) => Ok(Some(text.copy(alloc)?)),
        None => Ok(None),
    }
}

// The same file, where there is one.
fn copy_file(alloc: Global, file: &Option<ImageFile>) -> Result<Option<ImageFile>, NoMemory>
    ensures { IfOk result (λ copy. copy ≡ file.now) }
{
    match file {
        Some(file) => Ok(Some(file.copy(alloc)?)),
        None => Ok(None),
    }
}

// The same images.
fn copy_images(alloc: Global, images: &[Image]) -> Result<Items<Image>, NoMemory>
    ensures { IfOk result (λ copy. copy ≡ images.now) }
{
    let mut copy = Items::new(alloc);
    for image in images {
        let image = image.copy(alloc)?;
        copy.push(image)?;
    }
    Ok(copy)
}

impl BundleText {
    /// The same once more. The only error is out of memory.
    pub fn copy(&self, alloc: Global) -> Result<BundleText, NoMemory>
        ensures { IfOk result (λ copy. copy ≡ self.now) }
    {
        let compatible = self.compatible.copy(alloc)?;
        let version = copy_text(alloc, &self.version)?;
        let description = copy_text(alloc, &self.description)?;
        let build = copy_text(alloc, &self.build)?;
        Ok(BundleText {
            compatible,
            version,
            description,
            build,
        })
    }
}

impl ImageFile {
    /// The same once more. The only error is out of memory.
    pub fn copy(&self, alloc: Global) -> Result<ImageFile, NoMemory>
        ensures { IfOk result (λ copy. copy ≡ self.now) }
    {
        let name = self.name.copy(alloc)?;
        Ok(ImageFile {
            name,
            size: self.size,
            digest: self.digest,
        })
    }
}

impl Image {
    /// The same once more. The only error is out of memory.
    pub fn copy(&self, alloc: Global) -> Result<Image, NoMemory>
        ensures { IfOk result (λ copy. copy ≡ self.now) }
    {
        let class = self.class.copy(alloc)?;
        let file = copy_file(alloc, &self.file)?;
        Ok(Image {
            class,
            file,
            pre: self.pre,
            install: self.install,
            post: self.post,
            adaptive: self.adaptive,
        })
    }
}

impl Manifest {
    /// The same once more. The only error is out of memory.
    pub fn copy(&self, alloc: Global) -> Result<Manifest, NoMemory>
        ensures { IfOk result (λ copy. copy ≡ self.now) }
    {
        let bundle = self.bundle.copy(alloc)?;
        let hook_file = copy_text(alloc, &self.hook_file)?;
        let images = copy_images(alloc, self.images.as_slice())?;
        Ok(Manifest {
            bundle,
            hook_file,
            install_check: self.install_check,
            images,
        })
    }
}

ghost use Rattle.std.specs.Prelude.{IsTrue};
ghost use Rattle.std.proofs.Props.{props};
ghost use Rattle.manifest.specs.Sound.{has_source};

use updater_text::{Digest, Text};

/// The file of an image: its name beside the manifest, its length in bytes and its SHA-256.
#[derive(Debug, Drop)]
pub struct ImageFile {
    pub name: Text,
    pub size: u64,
    pub digest: Digest,
}

/// An image, and the hooks that it names. It has a file, or a hook installs it.
#[derive(Debug, Drop)]
pub struct Image {
    /// The class of the slots that the image is for.
    pub class: Text,
    pub file: Option<ImageFile>,
    /// A hook runs before the image is written.
    pub pre: bool,
    /// A hook runs in place of the write.
    pub install: bool,
    /// A hook runs after the image was written.
    pub post: bool,
    /// The image can be written by those of its blocks that differ.
    pub adaptive: bool,

    pub ghost sourced: { IsTrue (has_source file install) } by { Prim.hlevel props },
}

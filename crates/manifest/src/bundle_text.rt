ghost use Rattle.std.specs.Prelude.{IsTrue};
ghost use Rattle.std.proofs.Props.{props};
ghost use Rattle.manifest.specs.Sound.{are_bundle_texts};

use updater_text::Text;

/// What a bundle says of itself. Each text has at most 1,024 bytes; of those below 32 it has tabs, line
/// feeds and carriage returns alone.
#[derive(Debug, Drop)]
pub struct BundleText {
    /// The systems that the bundle is for.
    pub compatible: Text,
    pub version: Option<Text>,
    pub description: Option<Text>,
    pub build: Option<Text>,

    pub ghost formed: { IsTrue (are_bundle_texts compatible version description build) } by { Prim.hlevel props },
}

ghost use Rattle.std.specs.Prelude.{IsTrue};
ghost use Rattle.std.proofs.Props.{props};
ghost use Rattle.manifest.specs.Distinct.{classes_differ};
ghost use Rattle.manifest.specs.Hooked.{has_hook_file};

use crate::{BundleText, Image};
use updater_text::{Items, Text};

/// What a manifest says. Where a hook is named, the file of the hooks is there; no two images are
/// for one class.
#[derive(Debug, Drop)]
pub struct Manifest {
    pub bundle: BundleText,
    /// The name of the file of the hooks, beside the manifest.
    pub hook_file: Option<Text>,
    /// A hook decides whether the bundle is installed.
    pub install_check: bool,
    /// The images, in file order: 1 to 64.
    pub images: Items<Image>,

    pub ghost hooked: { IsTrue (has_hook_file hook_file install_check images) } by { Prim.hlevel props },
    pub ghost apart: { IsTrue (classes_differ images) } by { Prim.hlevel props },
}

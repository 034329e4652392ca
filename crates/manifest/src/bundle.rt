ghost use Rattle.std.specs.Prelude.{◌≡◌, [], IfOk, None, codes, unwrap_or};
ghost use Rattle.keyfile.specs.Groups.{get_in};
ghost use Rattle.manifest.specs.Contents.{bundle_of};
ghost use Rattle.manifest.specs.Reads.{bundle_content};
ghost use Rattle.manifest.specs.Refusals.{bad_value};

use crate::BundleText;
use keyfile::KeyFile;
use std::alloc::Global;
use updater_text::{NoMemory, Text, text_if_any};

/// What the bundle of a manifest with no bad value says of itself.
pub fn read_bundle_text(alloc: Global, file: &KeyFile) -> Result<BundleText, NoMemory>
    requires { bad_value file.now ≡ None }
    ensures { IfOk result (λ bundle. bundle_content bundle ≡ bundle_of file.now) }
{
    // The texts of a key file have the form of its values.
    file.reads_back();
    let compatible = Text::new(alloc, compatible_of(file))?;
    let version = text_if_any(alloc, file.get("update", "version"))?;
    let description = text_if_any(alloc, file.get("update", "description"))?;
    let build = text_if_any(alloc, file.get("update", "build"))?;
    Ok(BundleText {
        compatible,
        version,
        description,
        build,
    })
}

// The systems that the bundle is for.
fn compatible_of(file: &KeyFile) -> &str
    ensures { result.now ≡ unwrap_or (get_in file.entry.now (codes "update") (codes "compatible")) [] }
{
    file.get("update", "compatible").unwrap_or("")
}

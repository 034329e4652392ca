ghost use Rattle.std.specs.Prelude.{◌≡◌, IfOk, option_map};
ghost use Rattle.keyfile.specs.Groups.{get_in};
ghost use Rattle.manifest.specs.Reads.{bundle_content};
ghost use Rattle.slot_status.specs.Records.{bundle_by};

use crate::values::read_text;
use keyfile::KeyFile;
use manifest::BundleText;
use std::alloc::Global;
use updater_text::NoMemory;

/// What a group says of a bundle; None where `bundle.compatible` is not there.
pub fn read_bundle(
    alloc: Global,
    file: &KeyFile,
    group: &str,
) -> Result<Option<BundleText>, NoMemory>
    ensures { IfOk result
        (λ b. option_map bundle_content b ≡ bundle_by (λ key. get_in file.now group.now key)) }
{
    let Some(compatible) = read_text(alloc, file, group, "bundle.compatible")? else {
        return Ok(None);
    };
    let version = read_text(alloc, file, group, "bundle.version")?;
    let description = read_text(alloc, file, group, "bundle.description")?;
    let build = read_text(alloc, file, group, "bundle.build")?;
    Ok(Some(BundleText {
        compatible,
        version,
        description,
        build,
    }))
}

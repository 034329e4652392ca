ghost use Rattle.std.specs.Prelude.{◌≡◌, IfOk};
ghost use Rattle.manifest.specs.Images.{image_groups};
ghost use Rattle.manifest.specs.Refusals as spec;

use crate::ManifestRefusal;
use crate::key_table::ManifestKeys;
use crate::mandatory::first_missing;
use conf_forms::{first_bad, first_left_out, first_unknown};
use keyfile::KeyFile;
use std::alloc::Global;
use updater_text::{NoMemory, Text};

/// The first mandatory key that has no value.
#[tactic(auto, unfolding(crate::specs::Refusals::missing))]
pub fn missing(
    alloc: Global,
    file: &KeyFile,
    images: &[Text],
) -> Result<Option<ManifestRefusal>, NoMemory>
    requires { images.now ≡ image_groups file.now }
    ensures { IfOk result (λ refusal. refusal ≡ spec.missing file.now) }
{
    match first_missing(file, images) {
        Some(place) => {
            let (group, key) = place.copy(alloc)?;
            Ok(Some(ManifestRefusal::Missing { group, key }))
        }
        None => Ok(None),
    }
}

/// The first group or key that is not known.
#[tactic(auto, unfolding(crate::specs::Refusals::unknown_key))]
pub fn unknown_key(alloc: Global, file: &KeyFile) -> Result<Option<ManifestRefusal>, NoMemory>
    ensures { IfOk result (λ refusal. refusal ≡ spec.unknown_key file.now) }
{
    match first_unknown(&ManifestKeys, file)? {
        Some(place) => {
            let (group, key) = place.copy(alloc)?;
            Ok(Some(ManifestRefusal::UnknownKey { group, key }))
        }
        None => Ok(None),
    }
}

/// The first group or key that is left out.
#[tactic(auto, unfolding(crate::specs::Refusals::left_out))]
pub fn left_out(alloc: Global, file: &KeyFile) -> Result<Option<ManifestRefusal>, NoMemory>
    ensures { IfOk result (λ refusal. refusal ≡ spec.left_out file.now) }
{
    match first_left_out(&ManifestKeys, file)? {
        Some(place) => {
            let (group, key) = place.copy(alloc)?;
            Ok(Some(ManifestRefusal::LeftOut { group, key }))
        }
        None => Ok(None),
    }
}

/// The first value that does not have its form.
#[tactic(auto, unfolding(crate::specs::Refusals::bad_value))]
pub fn bad_value(alloc: Global, file: &KeyFile) -> Result<Option<ManifestRefusal>, NoMemory>
    ensures { IfOk result (λ refusal. refusal ≡ spec.bad_value file.now) }
{
    match first_bad(&ManifestKeys, file)? {
        Some(place) => {
            let (group, key) = place.copy(alloc)?;
            Ok(Some(ManifestRefusal::BadValue { group, key }))
        }
        None => Ok(None),
    }
}

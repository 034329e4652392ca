ghost use Rattle.std.specs.Prelude.{◌≡◌, IfOk};
ghost use Rattle.conf_forms.specs.Causes.{place_cause};
ghost use Rattle.manifest.specs.Causes.{group_cause, manifest_cause};

use crate::ManifestRefusal;
use conf_forms::place_cause;
use std::alloc::Global;
use updater_text::{NoMemory, Text};

// What is the matter with a place in the file.
fn matter_at(alloc: Global, group: &Text, key: &Text, matter: &str) -> Result<Text, NoMemory>
    ensures { IfOk result (λ t. t ≡ place_cause group.now key.now matter.now) }
{
    place_cause(alloc, group.as_str(), key.as_str(), matter)
}

// What is the matter with a group.
fn group_cause(alloc: Global, matter: &str, group: &Text) -> Result<Text, NoMemory>
    ensures { IfOk result (λ t. t ≡ group_cause matter.now group.now) }
{
    let group = group.as_str();
    Ok(Text::from_string(format!(in alloc; "{matter} [{group}]")?))
}

/// What is wrong with what a manifest says, in words, without the name of the file.
pub fn manifest_cause(alloc: Global, refusal: &ManifestRefusal) -> Result<Text, NoMemory>
    ensures { IfOk result (λ t. t ≡ manifest_cause refusal.now) }
{
    match refusal {
        ManifestRefusal::Missing { group, key } => matter_at(alloc, group, key, "missing"),
        ManifestRefusal::UnknownKey { group, key } => matter_at(alloc, group, key, "unknown"),
        ManifestRefusal::LeftOut { group, key } => matter_at(alloc, group, key, "left out"),
        ManifestRefusal::BadValue { group, key } => matter_at(alloc, group, key, "bad value"),
        ManifestRefusal::BadName { group } => group_cause(alloc, "bad file name", group),
        ManifestRefusal::BadDigest { group } => group_cause(alloc, "bad digest", group),
        ManifestRefusal::NoImages => Text::new(alloc, "no images"),
        ManifestRefusal::TooManyImages { count } => {
            Ok(Text::from_string(format!(in alloc; "too many images: {count}")?))
        }
    }
}

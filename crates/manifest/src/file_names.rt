ghost use Rattle.std.specs.Prelude.{◌≡◌, ◌==◌, IfOk, option_and_then, slice_get};
ghost use Rattle.std.specs.List.{list_any};
ghost use Rattle.conf_forms.specs.Lists.{is_among};
ghost use Rattle.manifest.specs.Refusals as spec;

use crate::ManifestRefusal;
use crate::image_groups::is_image_group;
use keyfile::KeyFile;
use std::alloc::Global;
use updater_text::{NoMemory, Text};

/// The first group of which the name of the file is none.
#[tactic(auto, unfolding(crate::specs::Refusals::bad_name))]
pub fn bad_name(alloc: Global, file: &KeyFile) -> Result<Option<ManifestRefusal>, NoMemory>
    ensures { IfOk result (λ refusal. refusal ≡ spec.bad_name file.now) }
{
    for at in 0..file.groups() {
        if let Some(why) = misnamed_at(alloc, file, at)? {
            return Ok(Some(why));
        }
    }
    Ok(None)
}

// The group at a place, where the name of its file is none.
fn misnamed_at(
    alloc: Global,
    file: &KeyFile,
    at: usize,
) -> Result<Option<ManifestRefusal>, NoMemory>
    ensures { IfOk result (λ refusal. refusal ≡ option_and_then (spec.misnamed file.now) (slice_get file.now at)) }
{
    let Some(group) = file.group(at) else {
        return Ok(None);
    };
    if is_misnamed(file, group) {
        return Ok(Some(ManifestRefusal::BadName {
            group: Text::new(alloc, group)?,
        }));
    }
    Ok(None)
}

fn is_misnamed(file: &KeyFile, group: &str) -> bool
    ensures { result ≡ spec.is_misnamed file.now group.now }
{
    if !has_file(group) {
        return false;
    }
    match file.get(group, "filename") {
        Some(name) => !is_file_name(name),
        None => false,
    }
}

fn has_file(group: &str) -> bool
    ensures { result ≡ spec.has_file group.now }
{
    group == "hooks" || is_image_group(group)
}

fn has_slash(name: &[u8]) -> bool
    ensures { result ≡ list_any (λ b. b == 47) name.now }
{
    name.iter().any(|byte| *byte == b'/')
}

fn is_reserved(name: &str) -> bool
    ensures { result ≡ is_among spec.reserved_names name.now }
{
    matches!(name, "" | "." | "..")
}

fn is_file_name(name: &str) -> bool
    ensures { result ≡ spec.is_file_name name.now }
{
    !is_reserved(name) && !has_slash(name.as_bytes())
}

ghost use Rattle.std.specs.Prelude.{◌≡◌, None, option_map};
ghost use Rattle.conf_forms.specs.Lists.{first_of};
ghost use Rattle.conf_forms.specs.Walks.{missing_key, place_texts};
ghost use Rattle.manifest.specs.Images.{image_groups};
ghost use Rattle.manifest.specs.Mandatory as spec;

use crate::image_groups::{is_hook_named, is_without_file};
use conf_forms::{KeyPlace, missing_key};
use keyfile::KeyFile;
use updater_text::Text;

/// The first mandatory key that has no value. It takes no memory.
pub fn first_missing<'a>(file: &KeyFile, images: &'a [Text]) -> Option<KeyPlace<'a>>
    requires { images.now ≡ image_groups file.now }
    ensures { option_map place_texts result ≡ spec.first_missing file.now }
{
    if let Some(place) = missing_key(file, "update", "compatible") {
        return Some(place);
    }
    if let Some(place) = missing_in_images(file, images) {
        return Some(place);
    }
    missing_hook_file(file, images)
}

// The file of the hooks, where it is not there and a hook is named.
fn missing_hook_file<'a>(file: &KeyFile, images: &'a [Text]) -> Option<KeyPlace<'a>>
    requires { images.now ≡ image_groups file.now }
    ensures { option_map place_texts result ≡ first_of (missing_key file.now) (spec.hook_keys file.now) }
{
    if is_hook_named(file, images) {
        missing_key(file, "hooks", "filename")
    } else {
        None
    }
}

// The first mandatory key that an image lacks.
fn missing_in_images<'a>(file: &KeyFile, images: &'a [Text]) -> Option<KeyPlace<'a>>
    ensures { option_map place_texts result ≡ first_of (λ group. first_of (missing_key file.now) (spec.image_keys file.now group)) images.entry.now }
{
    for group in images {
        if let Some(place) = missing_in_image(file, group.as_str()) {
            return Some(place);
        }
    }
    None
}

// The first mandatory key that the image of a group lacks.
fn missing_in_image<'a>(file: &KeyFile, group: &'a str) -> Option<KeyPlace<'a>>
    ensures { option_map place_texts result ≡ first_of (missing_key file.now) (spec.image_keys file.now group.entry.now) }
{
    if is_without_file(file, group) {
        return None;
    }
    if let Some(place) = missing_key(file, group, "filename") {
        return Some(place);
    }
    if let Some(place) = missing_key(file, group, "size") {
        return Some(place);
    }
    missing_key(file, group, "sha256")
}

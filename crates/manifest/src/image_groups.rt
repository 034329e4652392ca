ghost use Rattle.std.specs.Prelude.{◌≡◌, ◌++◌, [], ◌∷◌, IfOk, IsSome, OnOk, Some, filter, is_some, map, option_copied};
ghost use Rattle.std.specs.List.{IsDistinct, list_any};
ghost use Rattle.std.specs.Str.{bytes_eq};
ghost use Rattle.manifest.specs.Images as spec;

use conf_forms::{Form, has_item, is_class, value_with_form};
use keyfile::KeyFile;
use std::alloc::Global;
use updater_text::{Digest, NoMemory, Text, read_number};

/// The groups of the images, in file order.
pub fn image_groups(alloc: Global, file: &KeyFile) -> Result<Vec<Text>, NoMemory>
    ensures read { IfOk result (λ found. found.items ≡ spec.image_groups file.now) }
    ensures differ { IsDistinct bytes_eq (map (λ g. g.0) file.now) }
{
    let mut found = Vec::new(alloc);
    for at in 0..file.groups() {
        if let Some(group) = file.group(at) {
            push_image(&mut found, alloc, group)?;
        }
    }
    Ok(found)
}

// Puts a group at the end where it is an image's.
fn push_image(found: &mut Vec<Text>, alloc: Global, group: &str) -> Result<(), NoMemory>
    ensures { OnOk result (found.new.items ≡ found.old.items ++ filter spec.is_image_group (group.now ∷ [])) }
{
    if is_image_group(group) {
        let group = Text::new(alloc, group)?;
        found.push(group)?;
    }
    Ok(())
}

/// The class of an image, by its group; None where the group is no image's.
pub fn class_in(group: &str) -> Option<&str>
    ensures found { is_some result ≡ spec.is_image_group group.entry.now }
    ensures class { IsSome result → option_copied result ≡ Some (spec.class_of group.entry.now) }
{
    let class = group.strip_prefix("image.")?;
    if is_class(class) { Some(class) } else { None }
}

/// Whether a group is an image's.
pub fn is_image_group(group: &str) -> bool
    ensures { result ≡ spec.is_image_group group.now }
{
    class_in(group).is_some()
}

/// Whether an image names a hook.
pub fn has_hook(file: &KeyFile, group: &str, hook: &str) -> bool
    ensures { result ≡ spec.has_hook file.now group.now hook.now }
{
    match value_with_form(file, Form::ImageHooks, group, "hooks") {
        Some(hooks) => has_item(hooks, hook),
        None => false,
    }
}

fn has_any_hook(file: &KeyFile, group: &str) -> bool
    ensures { result ≡ spec.has_any_hook file.now group.now }
{
    has_hook(file, group, "pre-install")
        || has_hook(file, group, "install")
        || has_hook(file, group, "post-install")
}

/// Whether the bundle has a hook that decides on the install.
pub fn has_install_check(file: &KeyFile) -> bool
    ensures { result ≡ spec.has_install_check file.now }
{
    match value_with_form(file, Form::BundleHooks, "hooks", "hooks") {
        Some(hooks) => has_item(hooks, "install-check"),
        None => false,
    }
}

// Whether one of these images names a hook.
fn is_any_hooked(file: &KeyFile, images: &[Text]) -> bool
    ensures { result ≡ list_any (spec.has_any_hook file.now) images.now }
{
    images
        .iter()
        .any(|group| has_any_hook(file, group.as_str()))
}

/// Whether some hook is named.
pub fn is_hook_named(file: &KeyFile, images: &[Text]) -> bool
    requires { images.now ≡ spec.image_groups file.now }
    ensures { result ≡ spec.is_hook_named file.now }
{
    has_install_check(file) || is_any_hooked(file, images)
}

fn has_file_key(file: &KeyFile, group: &str) -> bool
    ensures { result ≡ spec.has_file_key file.now group.now }
{
    file.get(group, "filename").is_some()
        || file.get(group, "size").is_some()
        || file.get(group, "sha256").is_some()
        || file.get(group, "adaptive").is_some()
}

/// Whether an image has no file, and a hook installs it.
pub fn is_without_file(file: &KeyFile, group: &str) -> bool
    ensures { result ≡ spec.is_without_file file.now group.now }
{
    has_hook(file, group, "install") && !has_file_key(file, group)
}

/// The length in bytes of an image's file.
pub fn size_of(file: &KeyFile, group: &str) -> Option<u64>
    ensures { result ≡ spec.size_of file.now group.now }
{
    let size = file.get(group, "size")?;
    read_number(size.as_bytes())
}

/// The SHA-256 of an image's file.
pub fn digest_in(file: &KeyFile, group: &str) -> Option<Digest>
    ensures { result ≡ spec.digest_in file.now group.now }
{
    let digest = file.get(group, "sha256")?;
    Digest::read(digest)
}

/// Whether an image can be written by those of its blocks that differ.
pub fn is_adaptive(file: &KeyFile, group: &str) -> bool
    ensures { result ≡ spec.is_adaptive file.now group.now }
{
    match file.get(group, "adaptive") {
        Some(methods) => has_item(methods, "block-hash-index"),
        None => false,
    }
}

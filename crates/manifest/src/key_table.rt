ghost use Rattle.std.specs.Prelude.{◌≡◌, ◌==◌, false};
ghost use Rattle.std.specs.List.{before_first};
ghost use Rattle.conf_forms.specs.Lists.{value_beside};
ghost use Rattle.conf_forms.specs.Tables.{family_rule, form_by, form_of, group_rule};
ghost use Rattle.conf_forms.specs.Walks as walk;
ghost use Rattle.manifest.specs.KeyTable as spec;

use conf_forms::{Form, KeyTable, is_class};
use updater_text::NoMemory;

// What a group of the manifest is about.
#[derive(Clone, Copy)]
enum GroupKind {
    // `[update]`
    Update,
    // `[hooks]`
    Hooks,
    // `[image.<class>]`
    Image,
    // A group whose keys are not looked at.
    Unread,
    // A group that is left out.
    LeftOut,
    // No group of a manifest.
    Unknown,
}

// What the group of this name is about.
fn group_kind(group: &str) -> GroupKind
    ensures { spec.kind_rule result ≡ group_rule spec.manifest_table group.now }
{
    match group {
        "update" => GroupKind::Update,
        "hooks" => GroupKind::Hooks,
        "bundle" => GroupKind::Unread,
        "handler" => GroupKind::LeftOut,
        _ => family_kind(group),
    }
}

// What a group is about, by what its name begins with.
fn family_kind(group: &str) -> GroupKind
    ensures { spec.kind_rule result ≡ family_rule spec.manifest_table group.now }
{
    if let Some(name) = group.strip_prefix("image.") {
        image_kind(name)
    } else if group.as_bytes().starts_with(b"meta.") {
        GroupKind::Unread
    } else {
        GroupKind::Unknown
    }
}

// What a group is about whose name is `image.` and this.
fn image_kind(name: &str) -> GroupKind
    ensures { spec.kind_rule result ≡ spec.image_rule name.now }
{
    if is_class(name) {
        GroupKind::Image
    } else if is_class(first_part(name)) {
        GroupKind::LeftOut
    } else {
        GroupKind::Unknown
    }
}

// What stands before the first dot.
fn first_part(name: &str) -> &str
    ensures { result.now ≡ before_first (λ b. b == 46) name.now }
{
    match name.split_once('.') {
        Some((first, _)) => first,
        None => name,
    }
}

/// The groups and keys of a manifest.
#[derive(Clone, Copy)]
pub struct ManifestKeys;

impl KeyTable for ManifestKeys {
    ghost table = { spec.manifest_table };

    ghost conflict = { λ keys group entry. false };

    fn is_unknown_group(&self, group: &str) -> bool {
        matches!(group_kind(group), GroupKind::Unknown)
    }

    fn is_left_out_group(&self, group: &str) -> bool {
        matches!(group_kind(group), GroupKind::LeftOut)
    }

    fn form(&self, group: &str, key: &str) -> Option<Form> {
        form_in(group_kind(group), key)
    }

    fn is_conflict(&self, group: &str, key: &str, value: &str) -> Result<bool, NoMemory> {
        Ok(false)
    }
}

// The form of the values of a key of such a group.
fn form_in(kind: GroupKind, key: &str) -> Option<Form>
    ensures { result ≡ form_by (spec.kind_rule kind) key.now }
{
    match kind {
        GroupKind::Update => update_form(key),
        GroupKind::Hooks => hook_form(key),
        GroupKind::Image => image_form(key),
        GroupKind::Unread | GroupKind::LeftOut => Some(Form::Free),
        GroupKind::Unknown => None,
    }
}

fn update_form(key: &str) -> Option<Form>
    ensures { result ≡ value_beside spec.update_keys key.now }
{
    match key {
        "compatible" | "version" | "description" | "build" => Some(Form::Text),
        _ => None,
    }
}

fn hook_form(key: &str) -> Option<Form>
    ensures { result ≡ value_beside spec.hook_keys key.now }
{
    match key {
        "filename" => Some(Form::Free),
        "hooks" => Some(Form::BundleHooks),
        _ => None,
    }
}

fn image_form(key: &str) -> Option<Form>
    ensures { result ≡ value_beside spec.image_keys key.now }
{
    match key {
        "filename" | "sha256" | "adaptive" => Some(Form::Free),
        "size" => Some(Form::Number),
        "hooks" => Some(Form::ImageHooks),
        "type" | "convert" | "converted" => Some(Form::LeftOut),
        _ => None,
    }
}

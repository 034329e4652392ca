ghost use Rattle.std.specs.Prelude.{◌≡◌};
ghost use Rattle.conf_forms.specs.Lists.{value_beside};
ghost use Rattle.conf_forms.specs.Tables.{family_rule, form_by, form_of, group_rule};
ghost use Rattle.conf_forms.specs.Walks as walk;
ghost use Rattle.system_conf.specs.KeyTable as spec;

use conf_forms::Form;

// What a group of the configuration is about.
#[derive(Clone, Copy)]
enum GroupKind {
    // `[system]`
    System,
    // `[slot.<class>.<index>]`, and any other group that begins with `slot.`
    Slot,
    // `[handlers]`
    Handlers,
    // `[x-helpers]`
    Helpers,
    // A group whose keys are not looked at.
    Unread,
    // A group that is left out.
    LeftOut,
    // No group of a configuration.
    Unknown,
}

// What the group of this name is about.
fn group_kind(group: &str) -> GroupKind
    ensures { spec.kind_rule result ≡ group_rule spec.system_table group.now }
{
    match group {
        "system" => GroupKind::System,
        "handlers" => GroupKind::Handlers,
        "x-helpers" => GroupKind::Helpers,
        "keyring" | "streaming" | "encryption" | "casync" => GroupKind::Unread,
        "polling" | "autoinstall" => GroupKind::LeftOut,
        _ => family_kind(group),
    }
}

// What a group is about, by what its name begins with.
fn family_kind(group: &str) -> GroupKind
    ensures { spec.kind_rule result ≡ family_rule spec.system_table group.now }
{
    let name = group.as_bytes();
    if name.starts_with(b"slot.") {
        GroupKind::Slot
    } else if name.starts_with(b"log.") {
        GroupKind::Unread
    } else if name.starts_with(b"artifacts.") {
        GroupKind::LeftOut
    } else {
        GroupKind::Unknown
    }
}

/// Whether no group of this name is known.
pub fn is_unknown_group(group: &str) -> bool
    ensures { result ≡ walk.is_unknown_group spec.system_table group.now }
{
    matches!(group_kind(group), GroupKind::Unknown)
}

/// Whether the group of this name is left out.
pub fn is_left_out_group(group: &str) -> bool
    ensures { result ≡ walk.is_left_out_group spec.system_table group.now }
{
    matches!(group_kind(group), GroupKind::LeftOut)
}

/// The form of the values of a key of the group of this name; None where the key is not known there.
pub fn form_of(group: &str, key: &str) -> Option<Form>
    ensures { result ≡ form_of spec.system_table group.now key.now }
{
    form_in(group_kind(group), key)
}

// The form of the values of a key of such a group.
fn form_in(kind: GroupKind, key: &str) -> Option<Form>
    ensures { result ≡ form_by (spec.kind_rule kind) key.now }
{
    match kind {
        GroupKind::System => system_form(key),
        GroupKind::Slot => slot_form(key),
        GroupKind::Handlers => handler_form(key),
        GroupKind::Helpers => helper_form(key),
        GroupKind::Unread | GroupKind::LeftOut => Some(Form::Free),
        GroupKind::Unknown => None,
    }
}

fn system_form(key: &str) -> Option<Form>
    ensures { result ≡ value_beside spec.system_keys key.now }
{
    match key {
        "compatible" => Some(Form::Compatible),
        "bootloader" => Some(Form::Loader),
        "mountprefix" | "data-directory" => Some(Form::Directory),
        "statusfile" => Some(Form::StatusFile),
        "grubenv" => Some(Form::Path),
        "boot-attempts" | "boot-attempts-primary" => Some(Form::Attempts),
        "efi-use-bootnext" => Some(Form::Flag),
        "activate-installed" => Some(Form::Activation),
        "barebox-statename" | "bundle-formats" => Some(Form::Free),
        "max-bundle-download-size" | "max-bundle-signature-size" => Some(Form::Free),
        "variant-name" | "variant-file" | "variant-dtb" => Some(Form::LeftOut),
        "prevent-late-fallback" | "min-bundle-version" | "barebox-dtbpath" => Some(Form::LeftOut),
        _ => None,
    }
}

fn slot_form(key: &str) -> Option<Form>
    ensures { result ≡ value_beside spec.slot_keys key.now }
{
    match key {
        "device" => Some(Form::Path),
        "type" => Some(Form::SlotType),
        "bootname" => Some(Form::BootName),
        "allow-mounted" | "readonly" | "install-same" => Some(Form::Flag),
        "parent" | "extra-mount-opts" | "extra-mkfs-opts" => Some(Form::Free),
        "region-start" | "region-size" | "resize" => Some(Form::LeftOut),
        _ => None,
    }
}

fn handler_form(key: &str) -> Option<Form>
    ensures { result ≡ value_beside spec.handler_keys key.now }
{
    match key {
        "pre-install" | "post-install" | "bootloader-custom-backend" => Some(Form::Path),
        "system-info" => Some(Form::LeftOut),
        _ => None,
    }
}

fn helper_form(key: &str) -> Option<Form>
    ensures { result ≡ value_beside spec.helper_keys key.now }
{
    match key {
        "bundle-check" | "bundle-mount" | "bundle-umount" => Some(Form::Path),
        _ => None,
    }
}

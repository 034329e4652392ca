ghost use Rattle.std.specs.Prelude.{◌≡◌, ◌==◌};
ghost use Rattle.std.specs.List.{list_all, slice_split};
ghost use Rattle.conf_forms.specs.Forms as spec;

use crate::list::{are_bundle_hooks, are_image_hooks};
use updater_text::{read_flag, read_number};

/// What the value of a key has to look like.
#[derive(Clone, Copy, Debug, PartialEq, Eq)]
pub enum Form {
    /// A compatible: a text that is not empty.
    Compatible,
    /// The word of a boot loader.
    Loader,
    /// An absolute path.
    Path,
    /// An absolute path that may end in a slash.
    Directory,
    /// An absolute path; a status file in each slot is left out.
    StatusFile,
    /// `true`, `1`, `false` or `0`.
    Flag,
    /// A flag, whose values for false are left out.
    Activation,
    /// A number from 1 to 9.
    Attempts,
    /// The word of a slot's type.
    SlotType,
    /// A bootname.
    BootName,
    /// A decimal number of 64 bits.
    Number,
    /// A list of hooks of a bundle, of which there is `install-check`.
    BundleHooks,
    /// A list of hooks of an image: `pre-install`, `install` and `post-install`.
    ImageHooks,
    /// A text of at most 1,024 bytes, which may be empty.
    Text,
    /// Any text.
    Free,
    /// Any text; the key is left out.
    LeftOut,
}

impl Form {
    /// Whether a value has the form.
    pub fn accepts(self, value: &str) -> bool
        ensures { result ≡ spec.accepts self value.now }
    {
        match self {
            Form::Compatible => is_short(value),
            Form::Loader => is_loader(value),
            Form::Path | Form::StatusFile => is_path(value),
            Form::Directory => is_directory(value),
            Form::Flag | Form::Activation => read_flag(value.as_bytes()).is_some(),
            Form::Attempts => attempts_of(value).is_some(),
            Form::SlotType => is_slot_type(value),
            Form::BootName => is_bootname(value),
            Form::Number => read_number(value.as_bytes()).is_some(),
            Form::BundleHooks => are_bundle_hooks(value),
            Form::ImageHooks => are_image_hooks(value),
            Form::Text => is_text(value),
            Form::Free | Form::LeftOut => true,
        }
    }

    /// Whether a value is left out.
    pub fn is_left_out(self, value: &str) -> bool
        ensures { result ≡ spec.is_left_out self value.now }
    {
        match self {
            Form::StatusFile => value == "per-slot",
            Form::Activation => read_flag(value.as_bytes()) == Some(false),
            Form::LeftOut => true,
            _ => false,
        }
    }
}

fn is_loader(value: &str) -> bool
    ensures { result ≡ spec.accepts Form.Loader value.now }
{
    matches!(
        value,
        "grub" | "uboot" | "barebox" | "efi" | "custom" | "noop"
    )
}

fn is_slot_type(value: &str) -> bool
    ensures { result ≡ spec.accepts Form.SlotType value.now }
{
    match value {
        "raw" | "ext4" | "vfat" => true,
        "nand" | "nor" | "ubivol" | "ubifs" | "jffs2" => true,
        "boot-emmc" | "boot-gpt-switch" | "boot-mbr-switch" | "boot-raw-fallback" => true,
        _ => false,
    }
}

fn is_short(text: &str) -> bool
    ensures { result ≡ spec.is_short text.now }
{
    !text.is_empty() && text.len() <= 1024
}

fn is_text(text: &str) -> bool
    ensures { result ≡ spec.is_text text.now }
{
    text.len() <= 1024
}

fn is_part(part: &[u8]) -> bool
    ensures { result ≡ spec.is_part part.now }
{
    !matches!(part, b"" | b"." | b"..")
}

// Whether a text is a slash, and parts with a slash between them.
fn has_parts(text: &[u8]) -> bool
    ensures { result ≡ spec.has_parts text.now }
{
    match text {
        [b'/', rest @ ..] => are_parts(rest),
        _ => false,
    }
}

fn are_parts(text: &[u8]) -> bool
    ensures { result ≡ list_all spec.is_part (slice_split (λ b. b == 47) text.now) }
{
    text.split(|byte| *byte == b'/').all(|part| is_part(part))
}

fn has_path_bytes(text: &[u8]) -> bool
    ensures { result ≡ list_all spec.is_path_byte text.now }
{
    text.iter().all(|byte| *byte >= 32 && *byte != 127)
}

fn is_path(text: &str) -> bool
    ensures { result ≡ spec.is_path text.now }
{
    text.len() <= 4096 && has_path_bytes(text.as_bytes()) && has_parts(text.as_bytes())
}

/// A text without one slash at its end, where it has one.
pub fn without_slash(text: &str) -> &str
    ensures { result.now ≡ spec.without_slash text.now }
{
    text.strip_suffix('/').unwrap_or(text)
}

fn is_directory(text: &str) -> bool
    ensures { result ≡ spec.is_directory text.now }
{
    text.len() <= 4096 && is_path(without_slash(text))
}

fn has_bootname_bytes(text: &[u8]) -> bool
    ensures { result ≡ list_all spec.is_bootname_byte text.now }
{
    text.iter().all(|byte| byte.is_ascii_graphic() && !matches!(*byte, b'=' | b',' | b';' | b'"'))
}

fn is_bootname(text: &str) -> bool
    ensures { result ≡ spec.is_bootname text.now }
{
    is_short(text) && has_bootname_bytes(text.as_bytes())
}

/// The number from 1 to 9 that a text spells.
pub fn attempts_of(text: &str) -> Option<u8>
    ensures { result ≡ spec.attempts_of text.now }
{
    let number = read_number(text.as_bytes())?;
    if 1 <= number && number <= 9 {
        Some(number as u8)
    } else {
        None
    }
}

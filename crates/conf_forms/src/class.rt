ghost use Rattle.std.specs.Prelude.{◌≡◌};
ghost use Rattle.std.specs.List.{list_all};
ghost use Rattle.conf_forms.specs.Classes.{is_class, is_class_byte};

fn has_class_bytes(text: &[u8]) -> bool
    ensures { result ≡ list_all is_class_byte text.now }
{
    text.iter().all(|byte| byte.is_ascii_alphanumeric() || *byte == b'-' || *byte == b'_')
}

/// Whether a text is a class of slots and images: 1 to 255 letters, digits, `-` and `_`. It takes no
/// memory.
pub fn is_class(text: &str) -> bool
    ensures { result ≡ is_class text.now }
{
    !text.is_empty() && text.len() <= 255 && has_class_bytes(text.as_bytes())
}

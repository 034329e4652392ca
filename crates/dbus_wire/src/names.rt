//! Names in a header.

ghost use Rattle.std.specs.Prelude.{◌≡◌, false};
ghost use Rattle.dbus_wire.specs.Names as spec;

fn is_name_byte(inside: bool, byte: u8) -> bool
    ensures { result ≡ spec.is_name_byte inside byte }
{
    (byte.is_ascii_alphanumeric() || byte == b'_') && (inside || !byte.is_ascii_digit())
}

// Whether the bytes are parts with dots between them.
fn are_parts(bytes: &[u8]) -> bool
    ensures { result ≡ spec.are_parts false bytes.now }
{
    let mut inside = false;
    for byte in bytes {
        if *byte == b'.' {
            if !inside {
                return false;
            }
            inside = false;
        } else if is_name_byte(inside, *byte) {
            inside = true;
        } else {
            return false;
        }
    }
    inside
}

fn has_dot(bytes: &[u8]) -> bool
    ensures { result ≡ spec.has_dot bytes.now }
{
    for byte in bytes {
        if *byte == b'.' {
            return true;
        }
    }
    false
}

/// Whether a text is the name of a member: one part of letters, digits and underscores that begins
/// with no digit, of at most 255 bytes.
pub fn is_member(bytes: &[u8]) -> bool
    ensures { result ≡ spec.is_member bytes.now }
{
    bytes.len() <= 255 && are_parts(bytes) && !has_dot(bytes)
}

/// Whether a text is the name of an interface or of an error: at least two such parts with dots
/// between them, of at most 255 bytes.
pub fn is_interface(bytes: &[u8]) -> bool
    ensures { result ≡ spec.is_interface bytes.now }
{
    bytes.len() <= 255 && are_parts(bytes) && has_dot(bytes)
}

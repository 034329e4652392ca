ghost use Rattle.std.specs.Prelude.{◌≡◌};
ghost use Rattle.std.specs.List.{list_all};
ghost use Rattle.keyfile.specs.Groups.{is_key, is_key_byte, is_line_byte, is_name, is_name_byte, is_entry_value, is_value_byte, may_be_put};

// Whether a byte may stand in a line: it is not below 32, or a tab.
fn is_line_byte(byte: u8) -> bool
    ensures { result ≡ is_line_byte byte }
{
    32 <= byte || byte == b'\t'
}

// Whether a byte may stand in a value.
fn is_value_byte(byte: u8) -> bool
    ensures { result ≡ is_value_byte byte }
{
    is_line_byte(byte) || byte == b'\n' || byte == b'\r'
}

// Whether a byte may stand in the name of a group.
fn is_name_byte(byte: u8) -> bool
    ensures { result ≡ is_name_byte byte }
{
    is_line_byte(byte) && byte != b'[' && byte != b']'
}

// Whether a byte may stand in a key.
fn is_key_byte(byte: u8) -> bool
    ensures { result ≡ is_key_byte byte }
{
    byte.is_ascii_alphanumeric() || byte == b'-' || byte == b'_' || byte == b'.'
}

/// Whether only bytes that may stand in a line stand in a text.
pub fn has_line_bytes(text: &str) -> bool
    ensures { result ≡ list_all is_line_byte text.now }
{
    text.as_bytes().iter().all(|byte| is_line_byte(*byte))
}

// Whether only bytes that may stand in a name stand in a text.
fn has_name_bytes(text: &str) -> bool
    ensures { result ≡ list_all is_name_byte text.now }
{
    text.as_bytes().iter().all(|byte| is_name_byte(*byte))
}

// Whether only bytes that may stand in a key stand in a text.
fn has_key_bytes(text: &str) -> bool
    ensures { result ≡ list_all is_key_byte text.now }
{
    text.as_bytes().iter().all(|byte| is_key_byte(*byte))
}

/// Whether a text may be the name of a group.
pub fn is_name(name: &str) -> bool
    ensures { result ≡ is_name name.now }
{
    !name.is_empty() && has_name_bytes(name)
}

/// Whether a text may be a key.
pub fn is_key(key: &str) -> bool
    ensures { result ≡ is_key key.now }
{
    !key.is_empty() && has_key_bytes(key)
}

// Whether a text may be a value.
fn is_entry_value(value: &str) -> bool
    ensures { result ≡ is_entry_value value.now }
{
    value.as_bytes().iter().all(|byte| is_value_byte(*byte))
}

/// Whether a key file may have this group with this key and value. The name of a group is not empty
/// and has no bracket, and no byte below 32 but tabs. A key is one or more of letters, digits, `-`,
/// `_` and `.`. A value has no byte below 32 but tabs, line feeds and carriage returns.
pub fn fits(group: &str, key: &str, value: &str) -> bool
    ensures { result ≡ may_be_put group.now key.now value.now }
{
    is_name(group) && is_key(key) && is_entry_value(value)
}

ghost use Rattle.std.specs.Prelude.{◌≡◌, IfOk, option_map, string_bytes};
ghost use Rattle.keyfile.specs.Escapes.{escape_at, unescape};

use std::alloc::Global;
use updater_text::NoMemory;

// The character that the letter behind a backslash stands for, and what follows the letter.
fn escape_at(rest: &str) -> Option<(char, &str)>
    ensures { option_map (λ e. (e.0, e.1.now)) result ≡ escape_at rest.now }
{
    let (letter, after) = rest.split_at_checked(1)?;
    match letter.as_bytes() {
        b"s" => Some((' ', after)),
        b"n" => Some(('\n', after)),
        b"t" => Some(('\t', after)),
        b"r" => Some(('\r', after)),
        b"\\" => Some(('\\', after)),
        _ => None,
    }
}

/// The value that is written so; None where a backslash stands before no such letter.
pub fn unescape(alloc: Global, written: &str) -> Result<Option<String>, NoMemory>
    ensures { IfOk result (λ value. option_map string_bytes value ≡ unescape written.now) }
{
    let mut value = String::new(alloc);
    let mut left = written;
    while let Some((plain, rest)) = left.split_once('\\') {
        value.push_str(plain)?;
        let Some((escaped, after)) = escape_at(rest) else {
            return Ok(None);
        };
        value.push(escaped)?;
        left = after;
    }
    value.push_str(left)?;
    Ok(Some(value))
}

ghost use Rattle.std.specs.Prelude.{◌≡◌, ◌++◌, ◌∷◌, [], IfOk, OnOk, string_bytes};
ghost use Rattle.std.specs.List.{flat_map};
ghost use Rattle.updater_text.specs.Quotes.{quote_of, quote_byte};

use crate::{NoMemory, Text};
use std::alloc::{AllocError, Global};

// Appends a text, with each quote in it written `'\''`.
fn push_quoted(out: &mut String, text: &str) -> Result<(), AllocError>
    ensures { OnOk result (string_bytes out.new ≡ string_bytes out.old ++ flat_map quote_byte text.now) }
{
    let mut left = text;
    while let Some((plain, rest)) = left.split_once('\'') {
        out.push_str(plain)?;
        out.push_str("'\\''")?;
        left = rest;
    }
    out.push_str(left)?;
    Ok(())
}

/// The text between single quotes, with each quote in it written `'\''`, as a shell reads it back.
pub fn quote(alloc: Global, text: &str) -> Result<Text, NoMemory>
    ensures { IfOk result (λ quote. quote ≡ quote_of text.now) }
{
    let mut out = String::new(alloc);
    out.push('\'')?;
    push_quoted(&mut out, text)?;
    out.push('\'')?;
    Ok(Text::from_string(out))
}

ghost use Rattle.std.specs.Prelude.{◌≡◌, ◌++◌, [], IfOk, OnOk, decimal, map, option_map, unwrap_or};
ghost use Rattle.report_lines.specs.Lines as spec;

use std::alloc::{AllocError, Global};
use updater_text::{NoMemory, Text, quote};

// Writes a value, each control character of it as `?`.
fn write_shown(out: &mut Vec<u8>, value: &str) -> Result<(), AllocError>
    ensures { OnOk result (out.new.items ≡ out.old.items ++ map spec.shown_byte value.now) }
{
    for byte in value.as_bytes() {
        out.push(if *byte < 32 { b'?' } else { *byte })?;
    }
    Ok(())
}

/// Writes a line of a value.
#[tactic(auto, unfolding(crate::specs::Lines::line))]
pub fn write_line(out: &mut Vec<u8>, name: &str, value: &str) -> Result<(), AllocError>
    ensures { OnOk result (out.new.items ≡ out.old.items ++ spec.line name.now value.now) }
{
    out.extend_from_slice(name.as_bytes())?;
    write_shown(out, value)?;
    out.push(b'\n')?;
    Ok(())
}

/// Writes a line of a value, where there is one.
#[tactic(auto, unfolding(crate::specs::Lines::line_if_any))]
pub fn write_line_if_any(
    out: &mut Vec<u8>,
    name: &str,
    value: &Option<Text>,
) -> Result<(), AllocError>
    ensures { OnOk result (out.new.items ≡ out.old.items ++ spec.line_if_any name.now value.now) }
{
    match value {
        Some(value) => write_line(out, name, value.as_str()),
        None => Ok(()),
    }
}

/// Writes a line of a word, where there is one.
#[tactic(auto, unfolding(crate::specs::Lines::line_if_any))]
pub fn write_word_if_any(
    out: &mut Vec<u8>,
    name: &str,
    word: Option<&str>,
) -> Result<(), AllocError>
    ensures { OnOk result
        (out.new.items ≡ out.old.items ++ spec.line_if_any name.now (option_map (λ word. word.now) word.entry)) }
{
    match word {
        Some(word) => write_line(out, name, word),
        None => Ok(()),
    }
}

/// Writes a line of a number.
#[tactic(auto, unfolding(crate::specs::Lines::number_line))]
pub fn write_number_line(
    alloc: Global,
    out: &mut Vec<u8>,
    name: &str,
    number: u64,
) -> Result<(), AllocError>
    ensures { OnOk result (out.new.items ≡ out.old.items ++ spec.number_line name.now number) }
{
    let line = format!(in alloc; "{name}{number}\n")?;
    out.extend_from_slice(line.as_bytes())
}

/// Writes an assignment.
#[tactic(auto, unfolding(crate::specs::Lines::setting))]
pub fn write_setting(
    alloc: Global,
    out: &mut Vec<u8>,
    name: &str,
    value: &str,
) -> Result<(), NoMemory>
    ensures { OnOk result (out.new.items ≡ out.old.items ++ spec.setting name.now value.now) }
{
    let value = quote(alloc, value)?;
    out.extend_from_slice(name.as_bytes())?;
    out.push(b'=')?;
    out.extend_from_slice(value.as_bytes())?;
    out.push(b'\n')?;
    Ok(())
}

/// Writes an assignment to one of several variables, which are numbered.
#[tactic(auto, unfolding(crate::specs::Lines::numbered))]
pub fn write_numbered(
    alloc: Global,
    out: &mut Vec<u8>,
    name: &str,
    number: u64,
    value: &str,
) -> Result<(), NoMemory>
    ensures { OnOk result (out.new.items ≡ out.old.items ++ spec.numbered name.now number value.now) }
{
    let name = format!(in alloc; "{name}{number}")?;
    write_setting(alloc, out, name.as_str(), value)
}

/// A number in decimal.
pub fn decimal(alloc: Global, number: u64) -> Result<Text, NoMemory>
    ensures { IfOk result (λ text. text ≡ decimal number) }
{
    Ok(Text::from_string(format!(in alloc; "{number}")?))
}

/// Writes a text, where so.
pub fn write_if(out: &mut Vec<u8>, there: bool, text: &str) -> Result<(), AllocError>
    ensures { OnOk result (out.new.items ≡ out.old.items ++ spec.text_if there text.now) }
{
    if there {
        out.extend_from_slice(text.as_bytes())?;
    }
    Ok(())
}

/// The text, or the empty one.
pub fn text_or_none(text: &Option<Text>) -> &str
    ensures { result.now ≡ unwrap_or text.entry.now [] }
{
    match text {
        Some(text) => text.as_str(),
        None => "",
    }
}

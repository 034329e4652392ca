ghost use Rattle.std.specs.Prelude.{◌≡◌, ◌++◌, OnOk, string_bytes};
ghost use Rattle.keyfile.specs.Canonical.{canonical, entry_text, group_text};
ghost use Rattle.keyfile.specs.Escapes.{escape, value_text};
ghost use Rattle.keyfile.specs.Groups.{entries_in, groups_in};
ghost use Rattle.std.specs.List.{flat_map};

use indexmap::IndexMap;
use std::alloc::AllocError;

type Entries = IndexMap<String, String>;

// Writes a byte of a value behind its leading spaces.
fn write_byte(out: &mut Vec<u8>, byte: u8) -> Result<(), AllocError>
    ensures { OnOk result (out.new.items ≡ out.old.items ++ escape byte) }
{
    match byte {
        b'\n' => out.extend_from_slice(b"\\n"),
        b'\t' => out.extend_from_slice(b"\\t"),
        b'\r' => out.extend_from_slice(b"\\r"),
        b'\\' => out.extend_from_slice(b"\\\\"),
        _ => Ok(out.push(byte)?),
    }
}

// Writes a value.
fn write_value(out: &mut Vec<u8>, value: &str) -> Result<(), AllocError>
    ensures { OnOk result (out.new.items ≡ out.old.items ++ value_text value.now) }
{
    let mut leading = true;
    for byte in value.as_bytes() {
        leading = leading && *byte == b' ';
        if leading {
            out.extend_from_slice(b"\\s")?;
        } else {
            write_byte(out, *byte)?;
        }
    }
    Ok(())
}

// Writes the lines of a group's keys.
fn write_entries(out: &mut Vec<u8>, entries: &Entries) -> Result<(), AllocError>
    ensures { OnOk result (out.new.items ≡ out.old.items ++ flat_map entry_text (entries_in entries.now.entries)) }
{
    for (key, value) in entries {
        out.extend_from_slice(key.as_bytes())?;
        out.push(b'=')?;
        write_value(out, value.as_str())?;
        out.push(b'\n')?;
    }
    Ok(())
}

// Writes a group.
fn write_group(out: &mut Vec<u8>, name: &str, entries: &Entries) -> Result<(), AllocError>
    ensures { OnOk result (out.new.items ≡ out.old.items ++ group_text (name.now, entries_in entries.now.entries)) }
{
    out.push(b'[')?;
    out.extend_from_slice(name.as_bytes())?;
    out.extend_from_slice(b"]\n")?;
    write_entries(out, entries)
}

/// Writes the groups, with an empty line between each two.
pub fn write_groups(out: &mut Vec<u8>, groups: &IndexMap<String, Entries>) -> Result<(), AllocError>
    ensures { OnOk result (out.new.items ≡ out.old.items ++ canonical (groups_in groups.now.entries)) }
{
    let mut first = true;
    for (name, entries) in groups {
        if !first {
            out.push(b'\n')?;
        }
        first = false;
        write_group(out, name.as_str(), entries)?;
    }
    Ok(())
}

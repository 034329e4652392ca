ghost use Rattle.std.specs.Prelude.{◌≡◌, ◌++◌, [], IfOk, MatchOption, OnOk, option_map, slice_get};
ghost use Rattle.std.specs.List.{cons_option};
ghost use Rattle.keyfile.specs.Lines.{is_blank};
ghost use Rattle.slot_graph.specs.Mounts.{IsPlain, IsSplit, word_text, escaped_byte, mount_in, mounts_of, mount_words};

use std::alloc::Global;
use updater_text::{Items, NoMemory};

/// A mounted file system: the path of its device, or whatever else names its source, and the path
/// that it is mounted at.
#[derive(Debug, Drop)]
pub struct Mount {
    pub device: Items<u8>,
    pub point: Items<u8>,
}

// The byte that four bytes stand for, where they are an escape.
fn escaped_byte(text: &[u8]) -> Option<u8>
    ensures { result ≡ escaped_byte text.now }
{
    match text {
        b"\\040" => Some(b' '),
        b"\\011" => Some(b'\t'),
        b"\\012" => Some(b'\n'),
        b"\\134" => Some(b'\\'),
        _ => None,
    }
}

// The byte that an escape at the front stands for, and what follows the escape.
fn split_escape(word: &[u8]) -> Option<(u8, &[u8])>
    ensures { MatchOption result (IsPlain word.now) (λ split. IsSplit word.now split.0 split.1.now) }
{
    let (escape, rest) = word.split_at_checked(4)?;
    let byte = escaped_byte(escape)?;
    Some((byte, rest))
}

// The first byte that a word stands for, and what is left of the word.
fn split_byte(word: &[u8]) -> Option<(u8, &[u8])>
    ensures { MatchOption result (word.now ≡ []) (λ split. IsSplit word.now split.0 split.1.now) }
{
    if let Some(split) = split_escape(word) {
        return Some(split);
    }
    let (byte, rest) = word.split_first()?;
    Some((*byte, rest))
}

// A word with its escapes read.
fn read_word(alloc: Global, word: &[u8]) -> Result<Items<u8>, NoMemory>
    ensures { IfOk result (λ text. text ≡ word_text word.now) }
{
    let mut text = Items::new(alloc);
    let mut left = word;
    while let Some((byte, rest)) = split_byte(left) {
        text.push(byte)?;
        left = rest;
    }
    Ok(text)
}

fn is_blank(byte: u8) -> bool
    ensures { result ≡ is_blank byte }
{
    byte == b' ' || byte == b'\t'
}

// The word at a place of a line, counted from 0.
fn word_at(line: &[u8], at: usize) -> Option<&[u8]>
    ensures { option_map (λ word. word.now) result ≡ slice_get (mount_words line.now) at }
{
    line.split(|byte| is_blank(*byte))
        .filter(|word| !word.is_empty())
        .nth(at)
}

// What a line says is mounted.
fn mount_of(alloc: Global, line: &[u8]) -> Result<Option<Mount>, NoMemory>
    ensures { IfOk result (λ mount. mount ≡ mount_in (mount_words line.now)) }
{
    let Some(device) = word_at(line, 0) else {
        return Ok(None);
    };
    let Some(point) = word_at(line, 1) else {
        return Ok(None);
    };
    let device = read_word(alloc, device)?;
    let point = read_word(alloc, point)?;
    Ok(Some(Mount { device, point }))
}

// Puts what a line says is mounted at the end.
fn push_mount(mounts: &mut Vec<Mount>, alloc: Global, line: &[u8]) -> Result<(), NoMemory>
    ensures { OnOk result (mounts.new.items ≡ mounts.old.items ++ cons_option (mount_in (mount_words line.now)) []) }
{
    if let Some(mount) = mount_of(alloc, line)? {
        mounts.push(mount)?;
    }
    Ok(())
}

/// What is mounted, by the text of `/proc/mounts`: for each line with at least two words, which stand
/// between blanks, the first as the device and the second as the mount point. In each of them
/// `\040`, `\011`, `\012` and `\134` are read as a space, a tab, a line feed and a backslash
/// (proc_mounts(5)).
pub fn mounts(alloc: Global, bytes: &[u8]) -> Result<Vec<Mount>, NoMemory>
    ensures { IfOk result (λ mounts. mounts.items ≡ mounts_of bytes.now) }
{
    let mut mounts = Vec::new(alloc);
    for line in bytes.split(|byte| *byte == b'\n') {
        push_mount(&mut mounts, alloc, line)?;
    }
    Ok(mounts)
}

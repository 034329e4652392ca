//! The parts of a value, read at a place.

ghost use Rattle.std.specs.Prelude.{ℕ, false, slice_index, ◌≡◌, ◌+◌, ◌≤◌, ◌<◌, ◌^◌, ◌==◌, not, length, IfOk, option_map};
ghost use Rattle.std.specs.List.{list_all};
ghost use Rattle.wire_value.specs.Spelling.{alignment, gap, are_parts, is_path, is_path_byte};
ghost use Rattle.wire_value.specs.Reading.{bytes_at, byte_at, gap_at, from_word, word_at, ended_at, as_text, as_string, str_at, path_at, sign_at};
ghost use Rattle.wire_value.specs.Gives.{Gives, at};

use crate::error::ReadError;
use crate::place::Place;
use crate::types::first_letter;
use byteorder::{BigEndian, ByteOrder, LittleEndian};
use std::str;

/// The next `count` bytes, and the place behind them. Malformed where fewer are left.
#[tactic(auto, unfolding(crate::specs::Reading::bytes_at))]
pub fn bytes_of<'a>(place: Place<'a>, count: usize) -> Result<(&'a [u8], Place<'a>), ReadError>
    ensures gives { Gives (λ x. (x.0.now, at x.1)) result (bytes_at count (at place.entry)) }
    ensures length { IfOk result (λ x. length x.0.now ≡ count) }
    ensures inside { IfOk result (λ x. place.entry.offset + length x.0.now ≤ 2 ^ 32) }
    ensures small { IfOk result (λ x. (i : ℕ) → slice_index x.0.now i < 256) }
{
    if place.bytes.len() < count {
        return Err(ReadError::Malformed);
    }
    let (front, rest) = place.bytes.split_at(count);
    Ok((
        front,
        Place {
            offset: place.offset + count,
            bytes: rest,
        },
    ))
}

/// The next byte, and the place behind it. Malformed where none is left.
#[tactic(auto, unfolding(crate::specs::Reading::byte_at))]
pub fn byte_of<'a>(place: Place<'a>) -> Result<(u8, Place<'a>), ReadError>
    ensures { Gives (λ x. (x.0, at x.1)) result (byte_at (at place.entry)) }
{
    let (front, rest) = bytes_of(place, 1)?;
    Ok((front[0], rest))
}

fn are_zeros(bytes: &[u8]) -> bool
    ensures { result ≡ list_all (λ b. b == 0) bytes.now }
{
    for b in bytes {
        if *b != 0 {
            return false;
        }
    }
    true
}

/// How many bytes of padding lie between an offset and the next multiple of an alignment.
#[tactic(auto, unfolding(crate::specs::Spelling::gap))]
pub fn gap_before(alignment: usize, offset: usize) -> usize
    requires some { 0 < alignment }
    requires small { alignment ≤ 8 }
    ensures is { result ≡ gap alignment offset }
    ensures below { result < 8 }
{
    (alignment - offset % alignment) % alignment
}

/// The alignment of a type, by its first letter.
#[tactic(auto, unfolding(crate::specs::Spelling::alignment))]
pub fn alignment(kind: &[u8]) -> usize
    ensures is { result ≡ alignment kind.now }
    ensures some { 0 < result }
    ensures small { result ≤ 8 }
{
    match first_letter(kind) {
        b'y' | b'g' | b'v' => 1,
        b'n' | b'q' => 2,
        b'x' | b't' | b'd' | b'(' | b'{' => 8,
        _ => 4,
    }
}

/// The place behind the padding before an alignment. Malformed where it is cut or not zero.
#[tactic(auto, unfolding(crate::specs::Reading::gap_at))]
pub fn gap_of<'a>(alignment: usize, place: Place<'a>) -> Result<Place<'a>, ReadError>
    requires some { 0 < alignment }
    requires small { alignment ≤ 8 }
    ensures { Gives at result (gap_at alignment (at place.entry)) }
{
    let (zeros, rest) = bytes_of(place, gap_before(alignment, place.offset))?;
    if are_zeros(zeros) {
        Ok(rest)
    } else {
        Err(ReadError::Malformed)
    }
}

/// The number of one byte at a place, as the other numbers: Malformed where it is cut.
#[tactic(auto, using(crate::proofs::Steps::from_byte), unfolding(crate::specs::Reading::word_at))]
pub fn u8_of<'a>(little: bool, place: Place<'a>) -> Result<(u8, Place<'a>), ReadError>
    ensures { Gives (λ x. (x.0, at x.1)) result (word_at little 1 (at place.entry)) }
{
    let rest = gap_of(1, place)?;
    let (front, rest) = bytes_of(rest, 1)?;
    Ok((front[0], rest))
}

#[tactic(auto, unfolding(crate::specs::Reading::from_word))]
fn number_16(little: bool, bytes: &[u8]) -> u16
    requires { length bytes.now ≡ 2 }
    ensures { result ≡ from_word little 2 bytes.now }
{
    if little {
        LittleEndian::read_u16(bytes)
    } else {
        BigEndian::read_u16(bytes)
    }
}

/// The number of two bytes at a place, behind its padding, lowest byte first where `little`.
/// Malformed where it is cut or its padding is not zero.
#[tactic(auto, unfolding(crate::specs::Reading::word_at))]
pub fn u16_of<'a>(little: bool, place: Place<'a>) -> Result<(u16, Place<'a>), ReadError>
    ensures { Gives (λ x. (x.0, at x.1)) result (word_at little 2 (at place.entry)) }
{
    let rest = gap_of(2, place)?;
    let (front, rest) = bytes_of(rest, 2)?;
    Ok((number_16(little, front), rest))
}

#[tactic(auto, unfolding(crate::specs::Reading::from_word))]
fn number_32(little: bool, bytes: &[u8]) -> u32
    requires { length bytes.now ≡ 4 }
    ensures { result ≡ from_word little 4 bytes.now }
{
    if little {
        LittleEndian::read_u32(bytes)
    } else {
        BigEndian::read_u32(bytes)
    }
}

/// The same of four bytes.
#[tactic(auto, unfolding(crate::specs::Reading::word_at))]
pub fn u32_of<'a>(little: bool, place: Place<'a>) -> Result<(u32, Place<'a>), ReadError>
    ensures { Gives (λ x. (x.0, at x.1)) result (word_at little 4 (at place.entry)) }
{
    let rest = gap_of(4, place)?;
    let (front, rest) = bytes_of(rest, 4)?;
    Ok((number_32(little, front), rest))
}

#[tactic(auto, unfolding(crate::specs::Reading::from_word))]
fn number_64(little: bool, bytes: &[u8]) -> u64
    requires { length bytes.now ≡ 8 }
    ensures { result ≡ from_word little 8 bytes.now }
{
    if little {
        LittleEndian::read_u64(bytes)
    } else {
        BigEndian::read_u64(bytes)
    }
}

/// The same of eight bytes.
#[tactic(auto, unfolding(crate::specs::Reading::word_at))]
pub fn u64_of<'a>(little: bool, place: Place<'a>) -> Result<(u64, Place<'a>), ReadError>
    ensures { Gives (λ x. (x.0, at x.1)) result (word_at little 8 (at place.entry)) }
{
    let rest = gap_of(8, place)?;
    let (front, rest) = bytes_of(rest, 8)?;
    Ok((number_64(little, front), rest))
}

#[tactic(auto, unfolding(crate::specs::Reading::ended_at))]
fn ended_of<'a>(place: Place<'a>, count: usize) -> Result<(&'a [u8], Place<'a>), ReadError>
    ensures { Gives (λ x. (x.0.now, at x.1)) result (ended_at count (at place.entry)) }
{
    let (text, rest) = bytes_of(place, count)?;
    let (end, rest) = byte_of(rest)?;
    if end == 0 {
        Ok((text, rest))
    } else {
        Err(ReadError::Malformed)
    }
}

fn has_no_nul(bytes: &[u8]) -> bool
    ensures { result ≡ list_all (λ b. not (b == 0)) bytes.now }
{
    for b in bytes {
        if *b == 0 {
            return false;
        }
    }
    true
}

/// The bytes as a text, where they are UTF-8.
#[tactic(auto, using(crate::proofs::Texts::utf8_yes, crate::proofs::Texts::utf8_no))]
pub fn text_of(bytes: &[u8]) -> Option<&str>
    ensures { option_map (λ s. s.now) result ≡ as_text bytes.now }
{
    match str::from_utf8(bytes) {
        Ok(text) => Some(text),
        Err(_) => None,
    }
}

/// The bytes as a text, where they are UTF-8 without NUL.
pub fn string_of(bytes: &[u8]) -> Option<&str>
    ensures { option_map (λ s. s.now) result ≡ as_string bytes.now }
{
    if !has_no_nul(bytes) {
        return None;
    }
    text_of(bytes)
}

/// The string at a place: its length in four bytes, UTF-8 without NUL, and a NUL. Malformed where
/// none stands there.
#[tactic(auto, using(crate::proofs::Texts::string_yes, crate::proofs::Texts::string_same, crate::proofs::Texts::string_no), unfolding(crate::specs::Reading::str_at))]
pub fn str_of<'a>(little: bool, place: Place<'a>) -> Result<(&'a str, Place<'a>), ReadError>
    ensures { Gives (λ x. (x.0.now, at x.1)) result (str_at little (at place.entry)) }
{
    let (length, rest) = u32_of(little, place)?;
    let (bytes, rest) = ended_of(rest, length as usize)?;
    match string_of(bytes) {
        Some(text) => Ok((text, rest)),
        None => Err(ReadError::Malformed),
    }
}

fn is_path_byte(byte: u8) -> bool
    ensures { result ≡ is_path_byte byte }
{
    byte.is_ascii_alphanumeric() || byte == b'_'
}

// Whether the bytes may stand behind a path's first slash.
fn are_parts(bytes: &[u8]) -> bool
    ensures { result ≡ are_parts false bytes.now }
{
    let mut inside = false;
    for byte in bytes {
        if *byte == b'/' {
            if !inside {
                return false;
            }
            inside = false;
        } else if is_path_byte(*byte) {
            inside = true;
        } else {
            return false;
        }
    }
    inside
}

/// Whether a text is an object path: a slash alone, or parts of letters, digits and underscores,
/// each with a slash before it.
#[tactic(auto, using(crate::proofs::Texts::path_empty, crate::proofs::Texts::path_no_slash, crate::proofs::Texts::path_root, crate::proofs::Texts::path_parts))]
pub fn is_path(bytes: &[u8]) -> bool
    ensures { result ≡ is_path bytes.now }
{
    if bytes.is_empty() {
        return false;
    }
    if bytes[0] != b'/' {
        return false;
    }
    if bytes.len() == 1 {
        return true;
    }
    are_parts(bytes.split_at(1).1)
}

/// The object path at a place. Malformed where none stands there.
#[tactic(auto, unfolding(crate::specs::Reading::path_at))]
pub fn path_of<'a>(little: bool, place: Place<'a>) -> Result<(&'a str, Place<'a>), ReadError>
    ensures { Gives (λ x. (x.0.now, at x.1)) result (path_at little (at place.entry)) }
{
    let (text, rest) = str_of(little, place)?;
    if is_path(text.as_bytes()) {
        Ok((text, rest))
    } else {
        Err(ReadError::Malformed)
    }
}

/// A signature's bytes at a place: their length in one byte, the bytes and a NUL. Malformed where
/// they are cut; whether they are a signature is not looked at.
#[tactic(auto, unfolding(crate::specs::Reading::sign_at))]
pub fn sign_of<'a>(place: Place<'a>) -> Result<(&'a [u8], Place<'a>), ReadError>
    ensures { Gives (λ x. (x.0.now, at x.1)) result (sign_at (at place.entry)) }
{
    let (length, rest) = byte_of(place)?;
    ended_of(rest, usize::from(length))
}

//! Whether the grammar spells values, found out without taking memory.

ghost use Rattle.std.specs.Prelude.{◌≡◌, ◌+◌, ◌-◌, ◌*◌, ◌<◌, ◌≤◌, ◌^◌, ◌&&◌, Bool, true, false, List, ℕ, Some, None, nat_lt, take, drop, length, IfSome, if◌then◌else◌};
ghost use Rattle.wire_value.specs.Types.{string, object_path, signature};
ghost use Rattle.wire_value.specs.Plain.{array, struct, variant, words, sig};
ghost use Rattle.wire_value.specs.Spelling.{gap, first_item, is_path};
ghost use Rattle.wire_value.specs.Sizes.{ends};
ghost use Rattle.wire_value.specs.Reading.{is_string};
ghost use Rattle.wire_value.specs.Checking.{is_letter, within, checked_number, checked_words, checked, checked_items, checked_fields};
ghost use Rattle.wire_value.specs.View.{bit, view, views};

use crate::parts::{alignment, gap_before, is_path, string_of};
use crate::sizes::put_type_in;
use crate::types::{behind_letter, first_letter, first_type, is_end, is_signature, is_single};
use crate::value::Value;
use arrayvec::ArrayVec;
use byteorder::{ByteOrder, LittleEndian};

fn is_letter(kind: &[u8], letter: u8) -> bool
    ensures { result ≡ is_letter letter kind.now }
{
    kind.len() == 1 && first_letter(kind) == letter
}

fn within(end: usize, limit: usize) -> Option<usize>
    ensures is { result ≡ within limit end }
    ensures inside { IfSome result (λ e. e ≤ limit) }
{
    if end <= limit { Some(end) } else { None }
}

#[tactic(auto, using(crate::proofs::Checks::number_passes))]
fn check_u8(number: u8, kind: &[u8], letter: u8, offset: usize, limit: usize) -> Option<usize>
    requires near { offset ≤ 2 ^ 50 }
    ensures is { result ≡ checked_number limit letter kind.now number (2 ^ 8) 1 offset }
    ensures inside { IfSome result (λ e. e ≤ limit) }
{
    if !is_letter(kind, letter) {
        return None;
    }
    within(offset + gap_before(1, offset) + 1, limit)
}

#[tactic(auto, using(crate::proofs::Checks::number_passes))]
fn check_u16(number: u16, kind: &[u8], letter: u8, offset: usize, limit: usize) -> Option<usize>
    requires near { offset ≤ 2 ^ 50 }
    ensures is { result ≡ checked_number limit letter kind.now number (2 ^ 16) 2 offset }
    ensures inside { IfSome result (λ e. e ≤ limit) }
{
    if !is_letter(kind, letter) {
        return None;
    }
    within(offset + gap_before(2, offset) + 2, limit)
}

#[tactic(auto, using(crate::proofs::Checks::number_passes))]
fn check_u32(number: u32, kind: &[u8], letter: u8, offset: usize, limit: usize) -> Option<usize>
    requires near { offset ≤ 2 ^ 50 }
    ensures is { result ≡ checked_number limit letter kind.now number (2 ^ 32) 4 offset }
    ensures inside { IfSome result (λ e. e ≤ limit) }
{
    if !is_letter(kind, letter) {
        return None;
    }
    within(offset + gap_before(4, offset) + 4, limit)
}

#[tactic(auto, using(crate::proofs::Checks::number_passes))]
fn check_u64(number: u64, kind: &[u8], letter: u8, offset: usize, limit: usize) -> Option<usize>
    requires near { offset ≤ 2 ^ 50 }
    ensures is { result ≡ checked_number limit letter kind.now number (2 ^ 64) 8 offset }
    ensures inside { IfSome result (λ e. e ≤ limit) }
{
    if !is_letter(kind, letter) {
        return None;
    }
    within(offset + gap_before(8, offset) + 8, limit)
}

#[tactic(auto, using(crate::proofs::Checks::flag_passes))]
fn check_flag(flag: bool, kind: &[u8], offset: usize, limit: usize) -> Option<usize>
    requires near { offset ≤ 2 ^ 50 }
    ensures is { result ≡ checked_number limit 98 kind.now (bit flag) 2 4 offset }
    ensures inside { IfSome result (λ e. e ≤ limit) }
{
    if !is_letter(kind, b'b') {
        return None;
    }
    within(offset + gap_before(4, offset) + 4, limit)
}

// Whether the bytes are a string that a message can hold.
#[tactic(auto, using(crate::proofs::Texts::string_yes, crate::proofs::Texts::string_no))]
fn is_short_string(bytes: &[u8]) -> bool
    ensures { result ≡ (is_string bytes.now && nat_lt (length bytes.now) (2 ^ 32)) }
{
    match string_of(bytes) {
        Some(_) => bytes.len() < 4_294_967_296,
        None => false,
    }
}

fn check_string(text: &[u8], kind: &[u8], offset: usize, limit: usize) -> Option<usize>
    requires near { offset ≤ 2 ^ 50 }
    ensures is { result ≡ checked_words limit string kind.now text.now offset }
    ensures inside { IfSome result (λ e. e ≤ limit) }
{
    if !is_letter(kind, b's') || !is_short_string(text) {
        return None;
    }
    within(offset + gap_before(4, offset) + 4 + text.len() + 1, limit)
}

fn check_path(text: &[u8], kind: &[u8], offset: usize, limit: usize) -> Option<usize>
    requires near { offset ≤ 2 ^ 50 }
    ensures is { result ≡ checked_words limit object_path kind.now text.now offset }
    ensures inside { IfSome result (λ e. e ≤ limit) }
{
    if !is_letter(kind, b'o') || !is_short_string(text) || !is_path(text) {
        return None;
    }
    within(offset + gap_before(4, offset) + 4 + text.len() + 1, limit)
}

fn check_signature(text: &[u8], kind: &[u8], offset: usize, limit: usize) -> Option<usize>
    requires near { offset ≤ 2 ^ 50 }
    ensures is { result ≡ checked_words limit signature kind.now text.now offset }
    ensures inside { IfSome result (λ e. e ≤ limit) }
{
    if !is_letter(kind, b'g') || !is_signature(text) {
        return None;
    }
    within(offset + 1 + text.len() + 1, limit)
}

// The type of an entry's key, behind the brace.
fn key_type(types: &[u8]) -> &[u8]
    ensures { result.now ≡ take 1 types.now }
{
    if types.is_empty() {
        types
    } else {
        types.split_at(1).0
    }
}

// The type of an entry's value, behind the brace and the key.
fn value_type(types: &[u8]) -> &[u8]
    ensures { result.now ≡ take (length types.now - 2) (drop 1 types.now) }
{
    if types.len() < 2 {
        return types.split_at(0).0;
    }
    types.split_at(1).1.split_at(types.len() - 2).0
}

/// Where a value ends that begins at an offset, if the grammar spells it as one of the type and it
/// ends within the limit.
#[cycle(check)]
pub fn check(value: &Value, kind: &[u8], depth: usize, offset: usize, limit: usize) -> Option<usize>
    requires depth { depth ≤ 64 }
    requires near { offset + 300 * depth ≤ 2 ^ 50 }
    requires small { limit ≤ 2 ^ 40 }
    ensures is { result ≡ checked limit depth kind.now offset (view value.now) }
    ensures inside { IfSome result (λ e. e ≤ limit) }
{
    match value {
        Value::Byte(number) => check_u8(*number, kind, b'y', offset, limit),
        Value::Flag(flag) => check_flag(*flag, kind, offset, limit),
        Value::I16(number) => check_u16(number.cast_unsigned(), kind, b'n', offset, limit),
        Value::U16(number) => check_u16(*number, kind, b'q', offset, limit),
        Value::I32(number) => check_u32(number.cast_unsigned(), kind, b'i', offset, limit),
        Value::U32(number) => check_u32(*number, kind, b'u', offset, limit),
        Value::I64(number) => check_u64(number.cast_unsigned(), kind, b'x', offset, limit),
        Value::U64(number) => check_u64(*number, kind, b't', offset, limit),
        Value::Double(bytes) => check_u64(LittleEndian::read_u64(bytes), kind, b'd', offset, limit),
        Value::Fd(number) => check_u32(*number, kind, b'h', offset, limit),
        Value::Str(text) => check_string(text.as_bytes(), kind, offset, limit),
        Value::Path(text) => check_path(text.as_bytes(), kind, offset, limit),
        Value::Sig(text) => check_signature(text.as_bytes(), kind, offset, limit),
        Value::Array { item, items } => {
            check_array(item.as_bytes(), items, kind, depth, offset, limit)
        }
        Value::Struct(fields) => check_struct(fields, kind, depth, offset, limit),
        Value::Pair { key, value } => {
            if depth == 0 || first_letter(kind) != b'{' {
                return None;
            }
            let types = behind_letter(kind);
            let start = offset + gap_before(8, offset);
            let end = check(key, key_type(types), depth - 1, start, limit)?;
            check(value, value_type(types), depth - 1, end, limit)
        }
        Value::Variant(inner) => check_variant(inner, kind, depth, offset, limit),
    }
}

#[cycle(check)]
fn check_array(
    item: &[u8],
    items: &[Value],
    kind: &[u8],
    depth: usize,
    offset: usize,
    limit: usize,
) -> Option<usize>
    requires depth { depth ≤ 64 }
    requires near { offset + 300 * depth ≤ 2 ^ 50 }
    requires small { limit ≤ 2 ^ 40 }
    ensures is { result ≡ checked limit depth kind.now offset (array item.now (views items.now)) }
    ensures inside { IfSome result (λ e. e ≤ limit) }
{
    if depth == 0 || first_letter(kind) != b'a' || behind_letter(kind) != item {
        return None;
    }
    let start = offset + gap_before(4, offset) + 4;
    let first = start + gap_before(alignment(item), start);
    let end = check_items(items, item, depth - 1, first, limit)?;
    if end <= first + 67_108_864 {
        Some(end)
    } else {
        None
    }
}

#[cycle(check)]
fn check_items(
    items: &[Value],
    item: &[u8],
    depth: usize,
    offset: usize,
    limit: usize,
) -> Option<usize>
    requires depth { depth ≤ 64 }
    requires near { offset + 300 * depth ≤ 2 ^ 50 }
    requires small { limit ≤ 2 ^ 40 }
    ensures is { result ≡ checked_items limit depth item.now offset (views items.now) }
    ensures inside { IfSome result (λ e. e ≤ limit) }
{
    let mut offset = offset;
    for value in items {
        offset = check(value, item, depth, offset, limit)?;
    }
    within(offset, limit)
}

#[cycle(check)]
fn check_struct(
    fields: &[Value],
    kind: &[u8],
    depth: usize,
    offset: usize,
    limit: usize,
) -> Option<usize>
    requires depth { depth ≤ 64 }
    requires near { offset + 300 * depth ≤ 2 ^ 50 }
    requires small { limit ≤ 2 ^ 40 }
    ensures is { result ≡ checked limit depth kind.now offset (struct (views fields.now)) }
    ensures inside { IfSome result (λ e. e ≤ limit) }
{
    if depth == 0 || first_letter(kind) != b'(' {
        return None;
    }
    let start = offset + gap_before(8, offset);
    check_fields(fields, behind_letter(kind), depth - 1, start, limit)
}

/// The same of values of the types that a text writes, one after the other.
#[cycle(check)]
pub fn check_fields(
    fields: &[Value],
    types: &[u8],
    depth: usize,
    offset: usize,
    limit: usize,
) -> Option<usize>
    requires depth { depth ≤ 64 }
    requires near { offset + 300 * depth ≤ 2 ^ 50 }
    requires small { limit ≤ 2 ^ 40 }
    ensures is { result ≡ checked_fields limit depth types.now offset (views fields.now) }
    ensures inside { IfSome result (λ e. e ≤ limit) }
{
    let mut offset = offset;
    let mut types = types;
    for value in fields {
        if is_end(types) {
            return None;
        }
        let (kind, others) = first_type(types)?;
        offset = check(value, kind, depth, offset, limit)?;
        types = others;
    }
    if !is_end(types) {
        return None;
    }
    within(offset, limit)
}

#[cycle(check)]
fn check_variant(
    inner: &Value,
    kind: &[u8],
    depth: usize,
    offset: usize,
    limit: usize,
) -> Option<usize>
    requires depth { depth ≤ 64 }
    requires near { offset + 300 * depth ≤ 2 ^ 50 }
    requires small { limit ≤ 2 ^ 40 }
    ensures is { result ≡ checked limit depth kind.now offset (variant (view inner.now)) }
    ensures inside { IfSome result (λ e. e ≤ limit) }
{
    if depth == 0 || !is_letter(kind, b'v') {
        return None;
    }
    let mut types: ArrayVec<u8, 255> = ArrayVec::new();
    if !put_type_in(&mut types, inner) || !is_single(types.as_slice()) {
        return None;
    }
    let start = offset + 1 + types.len() + 1;
    check(inner, types.as_slice(), depth - 1, start, limit)
}

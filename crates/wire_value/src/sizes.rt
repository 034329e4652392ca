//! The types of values, and where values end.

ghost use Rattle.std.specs.Prelude.{◌≡◌, true, false, ◌++◌, ◌+◌, ◌<◌, ◌≤◌, ◌^◌, length, OnOk};
ghost use Rattle.wire_value.specs.Plain.{sig, sigs};
ghost use Rattle.wire_value.specs.Spelling.{gap};
ghost use Rattle.wire_value.specs.Reading.{head};
ghost use Rattle.wire_value.specs.Sizes.{behind_type, first_in, ends, end_all};
ghost use Rattle.wire_value.specs.View.{view, views};

use crate::parts::{alignment, gap_before};
use crate::value::Value;
use arrayvec::ArrayVec;
use std::alloc::AllocError;

// The first letter of a value's type.
fn letter_of(value: &Value) -> u8
    ensures { result ≡ head (sig (view value.now)) }
{
    match value {
        Value::Byte(_) => b'y',
        Value::Flag(_) => b'b',
        Value::I16(_) => b'n',
        Value::U16(_) => b'q',
        Value::I32(_) => b'i',
        Value::U32(_) => b'u',
        Value::I64(_) => b'x',
        Value::U64(_) => b't',
        Value::Double(_) => b'd',
        Value::Str(_) => b's',
        Value::Path(_) => b'o',
        Value::Sig(_) => b'g',
        Value::Fd(_) => b'h',
        Value::Array { item: _, items: _ } => b'a',
        Value::Struct(_) => b'(',
        Value::Pair { key: _, value: _ } => b'{',
        Value::Variant(_) => b'v',
    }
}

/// Adds the type of a value, as a signature writes it.
#[cycle(types)]
#[tactic(auto, using(std::proofs::lemmas::List::append_assoc))]
pub fn put_type(out: &mut Vec<u8>, value: &Value) -> Result<(), AllocError>
    ensures { OnOk result (out.new.items ≡ out.old.items ++ sig (view value.now)) }
{
    out.push(letter_of(value))?;
    match value {
        Value::Array { item, items: _ } => out.extend_from_slice(item.as_bytes())?,
        Value::Struct(fields) => {
            put_types(out, fields)?;
            out.push(b')')?;
        }
        Value::Pair { key, value } => {
            put_type(out, key)?;
            put_type(out, value)?;
            out.push(b'}')?;
        }
        _ => {}
    }
    Ok(())
}

/// Adds the types of values, one after the other.
#[cycle(types)]
pub fn put_types(out: &mut Vec<u8>, values: &[Value]) -> Result<(), AllocError>
    ensures { OnOk result (out.new.items ≡ out.old.items ++ sigs (views values.now)) }
{
    for value in values {
        put_type(out, value)?;
    }
    Ok(())
}

/// Adds the type of a value to a text of at most 255 bytes; false where it has no room.
#[cycle(short_types)]
#[tactic(auto, using(std::proofs::lemmas::List::append_assoc))]
pub fn put_type_in(out: &mut ArrayVec<u8, 255>, value: &Value) -> bool
    ensures put { result ≡ true → out.new.items ≡ out.old.items ++ sig (view value.now) }
    ensures full { result ≡ false → 255 < length out.old.items + length (sig (view value.now)) }
{
    if out.try_push(letter_of(value)).is_err() {
        return false;
    }
    match value {
        Value::Array { item, items: _ } => out.try_extend_from_slice(item.as_bytes()).is_ok(),
        Value::Struct(fields) => put_types_in(out, fields) && out.try_push(b')').is_ok(),
        Value::Pair { key, value } => {
            put_type_in(out, key) && put_type_in(out, value) && out.try_push(b'}').is_ok()
        }
        _ => true,
    }
}

#[cycle(short_types)]
fn put_types_in(out: &mut ArrayVec<u8, 255>, values: &[Value]) -> bool
    ensures put { result ≡ true → out.new.items ≡ out.old.items ++ sigs (views values.now) }
    ensures full { result ≡ false → 255 < length out.old.items + length (sigs (views values.now)) }
{
    for value in values {
        if !put_type_in(out, value) {
            return false;
        }
    }
    true
}

/// How many bytes the type of a value has. The condition bounds it.
#[cycle(lengths)]
pub fn type_len(value: &Value, most: usize) -> usize
    requires { length (sig (view value.now)) ≤ most }
    ensures { result ≡ length (sig (view value.now)) }
{
    match value {
        Value::Array { item, items: _ } => 1 + item.as_bytes().len(),
        Value::Struct(fields) => 2 + types_len(fields, most - 2),
        Value::Pair { key, value } => 2 + type_len(key, most - 2) + type_len(value, most - 2),
        _ => 1,
    }
}

#[cycle(lengths)]
fn types_len(values: &[Value], most: usize) -> usize
    requires { length (sigs (views values.now)) ≤ most }
    ensures { result ≡ length (sigs (views values.now)) }
{
    let mut len = 0;
    for value in values {
        len += type_len(value, most - len);
    }
    len
}

fn number_end(width: usize, offset: usize) -> usize
    requires some { 0 < width }
    requires small { width ≤ 8 }
    requires fits { offset + gap width offset + width ≤ 2 ^ 32 }
    ensures { result ≡ offset + gap width offset + width }
{
    offset + gap_before(width, offset) + width
}

fn text_end(len: usize, offset: usize) -> usize
    requires fits { offset + gap 4 offset + 4 + len + 1 ≤ 2 ^ 32 }
    ensures { result ≡ offset + gap 4 offset + 4 + len + 1 }
{
    offset + gap_before(4, offset) + 4 + len + 1
}

/// Where a value ends that begins at an offset. The condition bounds it.
#[cycle(ends)]
#[tactic(auto, using(crate::proofs::Ends::grows, crate::proofs::Ends::end_grows))]
pub fn end_of(value: &Value, offset: usize) -> usize
    requires { ends offset (view value.now) ≤ 2 ^ 32 }
    ensures { result ≡ ends offset (view value.now) }
{
    match value {
        Value::Byte(_) => number_end(1, offset),
        Value::I16(_) | Value::U16(_) => number_end(2, offset),
        Value::Flag(_) | Value::I32(_) | Value::U32(_) | Value::Fd(_) => number_end(4, offset),
        Value::I64(_) | Value::U64(_) | Value::Double(_) => number_end(8, offset),
        Value::Str(text) | Value::Path(text) => text_end(text.as_bytes().len(), offset),
        Value::Sig(text) => offset + 1 + text.as_bytes().len() + 1,
        Value::Array { item, items } => array_end(item.as_bytes(), items, offset),
        Value::Struct(fields) => end_of_all(fields, offset + gap_before(8, offset)),
        Value::Pair { key, value } => {
            let start = offset + gap_before(8, offset);
            end_of(value, end_of(key, start))
        }
        Value::Variant(inner) => variant_end(inner, offset),
    }
}

#[cycle(ends)]
#[tactic(auto, using(crate::proofs::Ends::grows, crate::proofs::Ends::end_grows))]
fn array_end(item: &[u8], items: &[Value], offset: usize) -> usize
    requires { end_all (first_in item.now offset) (views items.now) ≤ 2 ^ 32 }
    ensures { result ≡ end_all (first_in item.now offset) (views items.now) }
{
    let start = offset + gap_before(4, offset) + 4;
    end_of_all(items, start + gap_before(alignment(item), start))
}

#[cycle(ends)]
#[tactic(auto, using(crate::proofs::Ends::grows, crate::proofs::Ends::end_grows))]
fn variant_end(inner: &Value, offset: usize) -> usize
    requires { ends (behind_type offset (view inner.now)) (view inner.now) ≤ 2 ^ 32 }
    ensures { result ≡ ends (behind_type offset (view inner.now)) (view inner.now) }
{
    end_of(inner, offset + 1 + type_len(inner, 4_294_967_296) + 1)
}

/// Where the last of some values ends, the first of which begins at an offset. The condition bounds
/// it.
#[cycle(ends)]
#[tactic(auto, using(crate::proofs::Ends::grows, crate::proofs::Ends::end_grows, crate::proofs::Views::next_ends))]
pub fn end_of_all(values: &[Value], offset: usize) -> usize
    requires { end_all offset (views values.now) ≤ 2 ^ 32 }
    ensures { result ≡ end_all offset (views values.now) }
{
    let mut offset = offset;
    for value in values {
        offset = end_of(value, offset);
    }
    offset
}

//! Values as bytes.

ghost use Rattle.std.specs.Prelude.{◌≡◌, ◌++◌, ◌+◌, ◌<◌, ◌≤◌, ◌^◌, length, OnOk};
ghost use Rattle.byteorder.specs.Endian.{little_number};
ghost use Rattle.wire_value.specs.Types.{boolean, double};
ghost use Rattle.wire_value.specs.Plain.{number, sig, array, struct, variant};
ghost use Rattle.wire_value.specs.Spelling.{gap, first_item, spell, spells, IsValue};
ghost use Rattle.wire_value.specs.Sizes.{Adds, AddsValue, aligned, first_in, ends, end_all, Each};
ghost use Rattle.wire_value.specs.View.{bit, view, views};

use crate::parts::{alignment, gap_before};
use crate::put::{put_gap, put_signature, put_text, put_u8, put_u16, put_u32, put_u64};
use crate::sizes::{end_of_all, put_type, type_len};
use crate::value::Value;
use byteorder::{ByteOrder, LittleEndian};
use std::alloc::AllocError;

fn put_flag(out: &mut Vec<u8>, little: bool, flag: bool) -> Result<(), AllocError>
    ensures { AddsValue little result out.old.items out.new.items (number boolean (bit flag)) }
{
    put_u32(out, little, u32::from(flag))
}

fn put_double(out: &mut Vec<u8>, little: bool, bytes: &[u8; 8]) -> Result<(), AllocError>
    ensures { AddsValue little result out.old.items out.new.items (number double (little_number 8 bytes.now)) }
{
    put_u64(out, little, LittleEndian::read_u64(bytes))
}

/// Adds the spelling of a value, which begins at the offset that the bytes so far end at.
#[cycle(write)]
#[tactic(auto, using(crate::proofs::Ends::grows, crate::proofs::Ends::end_grows, crate::proofs::Ends::each_of, crate::proofs::Written::struct_each))]
pub fn put(out: &mut Vec<u8>, little: bool, value: &Value) -> Result<(), AllocError>
    requires valid { IsValue little (length out.old.items) (view value.now) }
    requires fits { ends (length out.old.items) (view value.now) < 2 ^ 32 }
    ensures { AddsValue little result out.old.items out.new.items (view value.now) }
{
    match value {
        Value::Byte(number) => put_u8(out, little, *number),
        Value::Flag(flag) => put_flag(out, little, *flag),
        Value::I16(number) => put_u16(out, little, number.cast_unsigned()),
        Value::U16(number) => put_u16(out, little, *number),
        Value::I32(number) => put_u32(out, little, number.cast_unsigned()),
        Value::U32(number) | Value::Fd(number) => put_u32(out, little, *number),
        Value::I64(number) => put_u64(out, little, number.cast_unsigned()),
        Value::U64(number) => put_u64(out, little, *number),
        Value::Double(bytes) => put_double(out, little, bytes),
        Value::Str(text) | Value::Path(text) => put_text(out, little, text.as_bytes()),
        Value::Sig(text) => put_signature(out, text.as_bytes()),
        Value::Array { item, items } => put_array(out, little, item.as_bytes(), items),
        Value::Struct(fields) => put_struct(out, little, fields),
        Value::Pair { key, value } => {
            put_gap(out, 8)?;
            put(out, little, key)?;
            put(out, little, value)
        }
        Value::Variant(inner) => put_variant(out, little, inner),
    }
}

#[cycle(write)]
#[tactic(auto, using(crate::proofs::Ends::grows, crate::proofs::Ends::end_grows, crate::proofs::Written::gap_len, crate::proofs::Written::array_out))]
fn put_array(
    out: &mut Vec<u8>,
    little: bool,
    item: &[u8],
    items: &[Value],
) -> Result<(), AllocError>
    requires valid { Each little (first_in item.now (length out.old.items)) (views items.now) }
    requires fits { end_all (first_in item.now (length out.old.items)) (views items.now) < 2 ^ 32 }
    ensures { AddsValue little result out.old.items out.new.items (array item.now (views items.now)) }
{
    let start = out.len() + gap_before(4, out.len()) + 4;
    let first = start + gap_before(alignment(item), start);
    put_u32(out, little, (end_of_all(items, first) - first) as u32)?;
    put_gap(out, alignment(item))?;
    put_all(out, little, items)
}

/// Adds the spellings of values, one after the other.
#[cycle(write)]
#[tactic(auto, using(crate::proofs::Ends::grows, crate::proofs::Ends::end_grows, crate::proofs::Views::next_ends, crate::proofs::Written::next_is, std::proofs::lemmas::List::append_assoc))]
pub fn put_all(out: &mut Vec<u8>, little: bool, values: &[Value]) -> Result<(), AllocError>
    requires valid { Each little (length out.old.items) (views values.now) }
    requires fits { end_all (length out.old.items) (views values.now) < 2 ^ 32 }
    ensures { Adds result out.old.items out.new.items (λ n. spells little n (views values.now)) }
{
    for value in values {
        put(out, little, value)?;
    }
    Ok(())
}

#[cycle(write)]
#[tactic(auto, using(crate::proofs::Ends::grows, crate::proofs::Ends::end_grows, crate::proofs::Written::gap_len, crate::proofs::Written::struct_out))]
fn put_struct(out: &mut Vec<u8>, little: bool, fields: &[Value]) -> Result<(), AllocError>
    requires valid { Each little (aligned 8 (length out.old.items)) (views fields.now) }
    requires fits { end_all (aligned 8 (length out.old.items)) (views fields.now) < 2 ^ 32 }
    ensures { AddsValue little result out.old.items out.new.items (struct (views fields.now)) }
{
    put_gap(out, 8)?;
    put_all(out, little, fields)
}

#[cycle(write)]
#[tactic(auto, using(crate::proofs::Ends::grows, crate::proofs::Ends::end_grows, std::proofs::lemmas::List::append_assoc))]
fn put_variant(out: &mut Vec<u8>, little: bool, inner: &Value) -> Result<(), AllocError>
    requires short { length (sig (view inner.now)) ≤ 255 }
    requires valid { IsValue little (length out.old.items) (variant (view inner.now)) }
    requires fits { ends (length out.old.items) (variant (view inner.now)) < 2 ^ 32 }
    ensures { AddsValue little result out.old.items out.new.items (variant (view inner.now)) }
{
    out.push(type_len(inner, 255) as u8)?;
    put_type(out, inner)?;
    out.push(0)?;
    put(out, little, inner)
}

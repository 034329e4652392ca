//! Values, read at a place.

ghost use Rattle.std.specs.Prelude.{◌≡◌, ◌≢◌, ◌∷◌, ◌<◌, ◌≤◌, suc, length};
ghost use Rattle.wire_value.specs.Types.{IsType, IsItemType, IsEntryType, byte, boolean, int16, uint16, int32, uint32, int64, uint64, double, unix_fd, string, object_path, signature, fixed, textual};
ghost use Rattle.wire_value.specs.Spelling.{alignment};
ghost use Rattle.wire_value.specs.Reading.{basic_at, leaf_at, all_items_at, body_at, array_value_at, values_at, struct_at, entry_at, variant_at, value_at};
ghost use Rattle.wire_value.specs.Gives.{Gives, GivesValue, GivesValues, GivesItems, at};
ghost use Rattle.wire_value.specs.View.{view, views};

use crate::basic::leaf_of;
use crate::error::ReadError;
use crate::parts::{alignment, bytes_of, gap_of, sign_of, text_of, u32_of};
use crate::place::Place;
use crate::types::{behind_letter, first_letter, first_type, is_end, is_single};
use crate::value::Value;
use std::alloc::Global;
use updater_text::Text;

// The bytes of an array's items, and what stands behind them.
#[tactic(auto, unfolding(crate::specs::Reading::body_at))]
fn body_of<'a>(
    little: bool,
    item: &[u8],
    place: Place<'a>,
) -> Result<(Place<'a>, Place<'a>), ReadError>
    ensures { Gives (λ x. (at x.0, at x.1)) result (body_at little item.now (at place.entry)) }
{
    let (length, rest) = u32_of(little, place)?;
    let rest = gap_of(alignment(item), rest)?;
    let (front, after) = bytes_of(rest, length as usize)?;
    if length > 67_108_864 {
        return Err(ReadError::Malformed);
    }
    let inside = Place {
        offset: rest.offset,
        bytes: front,
    };
    Ok((inside, after))
}

/// The value of a type at a place, in which so many containers nest at most.
#[cycle(read)]
#[tactic(auto, using(crate::proofs::ReadSteps::v_zero, crate::proofs::ReadSteps::v_array, crate::proofs::ReadSteps::v_struct, crate::proofs::ReadSteps::v_entry, crate::proofs::ReadSteps::v_variant, crate::proofs::ReadSteps::v_leaf, crate::proofs::ReadSteps::item_type, crate::proofs::ReadSteps::entry_type))]
pub fn value_of<'a>(
    alloc: Global,
    little: bool,
    depth: usize,
    kind: &[u8],
    place: Place<'a>,
) -> Result<(Value, Place<'a>), ReadError>
    requires small { depth ≤ 64 }
    requires kind { IsItemType kind.now }
    ensures { GivesValue result (value_at depth little kind.now (at place.entry)) }
{
    let letter = first_letter(kind);
    if depth == 0 {
        return leaf_of(alloc, little, letter, place);
    }
    if letter == b'a' {
        return array_of(alloc, little, depth - 1, behind_letter(kind), place);
    }
    if letter == b'(' {
        return struct_of(alloc, little, depth - 1, behind_letter(kind), place);
    }
    if letter == b'{' {
        return entry_of(alloc, little, depth - 1, behind_letter(kind), place);
    }
    if letter == b'v' {
        return variant_of(alloc, little, depth - 1, place);
    }
    leaf_of(alloc, little, letter, place)
}

#[cycle(read)]
#[tactic(auto, using(crate::proofs::Ascii::item_text), unfolding(crate::specs::Reading::array_at))]
fn array_of<'a>(
    alloc: Global,
    little: bool,
    depth: usize,
    item: &[u8],
    place: Place<'a>,
) -> Result<(Value, Place<'a>), ReadError>
    requires small { depth ≤ 64 }
    requires kind { IsItemType item.now }
    ensures { GivesValue result (array_value_at depth little item.now (at place.entry)) }
{
    let (inside, after) = body_of(little, item, place)?;
    let items = items_of(alloc, little, depth, item, inside)?;
    let Some(text) = text_of(item) else {
        return Err(ReadError::Malformed);
    };
    let item = Text::new(alloc, text)?;
    Ok((Value::Array { item, items }, after))
}

#[cycle(read)]
pub fn items_of<'a>(
    alloc: Global,
    little: bool,
    depth: usize,
    item: &[u8],
    place: Place<'a>,
) -> Result<Vec<Value>, ReadError>
    requires small { depth ≤ 64 }
    requires kind { IsItemType item.now }
    ensures { GivesItems result (all_items_at depth little item.now (at place.entry)) }
{
    let mut found = Vec::new(alloc);
    let mut rest = place;
    'items: while !rest.bytes.is_empty() {
        let (value, after) = value_of(alloc, little, depth, item, rest)?;
        found.push(value)?;
        rest = after;
    }
    Ok(found)
}

#[cycle(read)]
#[tactic(auto, unfolding(crate::specs::Reading::struct_at))]
fn struct_of<'a>(
    alloc: Global,
    little: bool,
    depth: usize,
    types: &[u8],
    place: Place<'a>,
) -> Result<(Value, Place<'a>), ReadError>
    requires small { depth ≤ 64 }
    ensures { GivesValue result (struct_at (value_at depth little) types.now (at place.entry)) }
{
    let rest = gap_of(8, place)?;
    let (fields, rest) = fields_of(alloc, little, depth, types, rest)?;
    Ok((Value::Struct(fields), rest))
}

#[cycle(read)]
pub fn fields_of<'a>(
    alloc: Global,
    little: bool,
    depth: usize,
    types: &[u8],
    place: Place<'a>,
) -> Result<(Vec<Value>, Place<'a>), ReadError>
    requires small { depth ≤ 64 }
    ensures { GivesValues result (values_at depth little types.now (at place.entry)) }
{
    let mut found = Vec::new(alloc);
    let mut types = types;
    let mut rest = place;
    'fields: while !is_end(types) {
        let Some((kind, others)) = first_type(types) else {
            return Err(ReadError::Malformed);
        };
        let (value, after) = value_of(alloc, little, depth, kind, rest)?;
        found.push(value)?;
        types = others;
        rest = after;
    }
    Ok((found, rest))
}

#[cycle(read)]
#[tactic(auto, using(crate::proofs::ReadSteps::key_type, crate::proofs::ReadSteps::value_type), unfolding(crate::specs::Reading::entry_at))]
fn entry_of<'a>(
    alloc: Global,
    little: bool,
    depth: usize,
    types: &[u8],
    place: Place<'a>,
) -> Result<(Value, Place<'a>), ReadError>
    requires small { depth ≤ 64 }
    requires types { IsEntryType (123 ∷ types.now) }
    ensures { GivesValue result (entry_at (value_at depth little) types.now (at place.entry)) }
{
    let (key_type, others) = types.split_at(1);
    let value_type = others.split_at(types.len() - 2).0;
    let rest = gap_of(8, place)?;
    let (key, rest) = value_of(alloc, little, depth, key_type, rest)?;
    let key = Box::new(alloc, key)?;
    let (value, rest) = value_of(alloc, little, depth, value_type, rest)?;
    let value = Box::new(alloc, value)?;
    Ok((Value::Pair { key, value }, rest))
}

#[cycle(read)]
#[tactic(auto, using(crate::proofs::Signatures::single_is), unfolding(crate::specs::Reading::variant_at))]
fn variant_of<'a>(
    alloc: Global,
    little: bool,
    depth: usize,
    place: Place<'a>,
) -> Result<(Value, Place<'a>), ReadError>
    requires small { depth ≤ 64 }
    ensures { GivesValue result (variant_at (value_at depth little) (at place.entry)) }
{
    let (kind, rest) = sign_of(place)?;
    if !is_single(kind) {
        return Err(ReadError::Malformed);
    }
    let (value, rest) = value_of(alloc, little, depth, kind, rest)?;
    Ok((Value::Variant(Box::new(alloc, value)?), rest))
}

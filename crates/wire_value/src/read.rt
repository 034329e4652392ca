//! Values read from the bytes of a message.

ghost use Rattle.std.specs.Prelude.{◌≤◌};
ghost use Rattle.wire_value.specs.Types.{IsType, IsItemType, IsSignature};
ghost use Rattle.wire_value.specs.Reading.{all_items_at, values_at, value_at};
ghost use Rattle.wire_value.specs.Gives.{GivesValue, GivesValues, GivesItems, at};
ghost use Rattle.wire_value.specs.Gives.{ValueIsThere, NoValueMissed, ValuesAreThere, NoValuesMissed, ItemsAreThere, NoItemsMissed};

use crate::error::ReadError;
use crate::place::Place;
use crate::reading::{fields_of, items_of, value_of};
use crate::value::Value;
use std::alloc::Global;

/// The value of one complete type that stands at a place, and the place behind it. At most `depth`
/// containers nest in it. `little` says whether numbers have their lowest byte first. Malformed
/// comes exactly where no such value stands there; memory is taken only for what was read.
pub fn read_value<'a>(
    alloc: Global,
    little: bool,
    depth: usize,
    kind: &[u8],
    place: Place<'a>,
) -> Result<(Value, Place<'a>), ReadError>
    requires depth { depth ≤ 64 }
    requires kind { IsType kind.now }
    ensures found { ValueIsThere little depth kind.now (at place.entry) result }
    ensures only { NoValueMissed little depth kind.now (at place.entry) result }
    ensures exact { GivesValue result (value_at depth little kind.now (at place.entry)) }
{
    value_of(alloc, little, depth, kind, place)
}

/// The values of a signature that stand at a place, as a body has them, and the place behind them.
/// Malformed comes exactly where they do not stand there.
pub fn read_values<'a>(
    alloc: Global,
    little: bool,
    depth: usize,
    signature: &[u8],
    place: Place<'a>,
) -> Result<(Vec<Value>, Place<'a>), ReadError>
    requires depth { depth ≤ 64 }
    requires signature { IsSignature signature.now }
    ensures found { ValuesAreThere little depth signature.now (at place.entry) result }
    ensures only { NoValuesMissed little depth signature.now (at place.entry) result }
    ensures exact { GivesValues result (values_at depth little signature.now (at place.entry)) }
{
    fields_of(alloc, little, depth, signature, place)
}

/// The items of an array, which all bytes of a place are, by the type of an item. Malformed comes
/// exactly where they are no such items.
pub fn read_items<'a>(
    alloc: Global,
    little: bool,
    depth: usize,
    item: &[u8],
    place: Place<'a>,
) -> Result<Vec<Value>, ReadError>
    requires depth { depth ≤ 64 }
    requires item { IsItemType item.now }
    ensures found { ItemsAreThere little depth item.now (at place.entry) result }
    ensures only { NoItemsMissed little depth item.now (at place.entry) result }
    ensures exact { GivesItems result (all_items_at depth little item.now (at place.entry)) }
{
    items_of(alloc, little, depth, item, place)
}
